ghost use Rattle.std.specs.Prelude.{◌≡◌, ◌≢◌, ◌↔◌, ℕ, List, Option, Some, Bool, true, not, slice_get};
ghost use Rattle.vx_flag.specs.Flag.{flag_text, flags, flag_index, flag_of};
ghost use Rattle.vx_flag.specs.Group.{group_text, group_of, fits};
ghost use Rattle.vx_flag.specs.Settings.{setting_of, with_setting};
ghost use Rattle.vx_flag.specs.State.{state_text, state_of, strictest};
ghost use Rattle.vx_flag.specs.declared.association.Association.{Association};
ghost use Rattle.vx_flag.specs.declared.flag.Flag.{Flag};
ghost use Rattle.vx_flag.specs.declared.group.Group.{Group};
ghost use Rattle.vx_flag.specs.declared.group.Group.TheVariants.{All, Members, Owners, Nonmembers, Nonowners};
ghost use Rattle.vx_flag.specs.declared.setting.Setting.{Setting};
ghost use Rattle.vx_flag.specs.declared.settings.Settings.{Settings};
ghost use Rattle.vx_flag.specs.declared.state.State.{State};
ghost use Rattle.vx_flag.specs.declared.state.State.TheVariants.{Allow, Deny};

use crate::flag::Flag;

/// However many states are combined, in whatever order, one denial denies and allowing adds
/// nothing.
pub fn states_combine()
    ensures commutative { (a b : State) → strictest a b ≡ strictest b a }
    ensures associative { (a b c : State)
        → strictest (strictest a b) c ≡ strictest a (strictest b c) }
    ensures idempotent { (a : State) → strictest a a ≡ a }
    ensures deny { (a : State) → strictest Deny a ≡ Deny }
    ensures allow { (a : State) → strictest Allow a ≡ a }
{}

/// `all` fits everyone. Everyone fits exactly one of `members` and `nonmembers`, and exactly one
/// of `owners` and `nonowners`.
pub fn groups_complement()
    ensures all { (a : Association) → fits All a ≡ true }
    ensures members { (a : Association) → fits Nonmembers a ≡ not (fits Members a) }
    ensures owners { (a : Association) → fits Nonowners a ≡ not (fits Owners a) }
{}

/// `Flag::ALL` has every flag, at its own place.
pub fn flags_have_places()
    ensures all { Flag.ALL ≡ flags }
    ensures placed { (f : Flag) → slice_get flags (flag_index f) ≡ Some f }
{}

/// No two flags have one text, no two states, and no two groups.
pub fn one_text_each()
    ensures flags { (a b : Flag) → flag_text a ≡ flag_text b → a ≡ b }
    ensures states { (a b : State) → state_text a ≡ state_text b → a ≡ b }
    ensures groups { (a b : Group) → group_text a ≡ group_text b → a ≡ b }
{}

/// A text is read as the one flag, state or group that has it.
pub fn texts_are_read()
    ensures flags { (t : List ℕ) (f : Flag) → (flag_of t ≡ Some f) ↔ (flag_text f ≡ t) }
    ensures states { (t : List ℕ) (s : State) → (state_of t ≡ Some s) ↔ (state_text s ≡ t) }
    ensures groups { (t : List ℕ) (g : Group) → (group_of t ≡ Some g) ↔ (group_text g ≡ t) }
{}

/// A change to one flag sets or clears that flag, and leaves every other as it was.
pub fn one_flag_changes()
    ensures changed { (s : Settings) (f : Flag) (o : Option Setting)
        → setting_of (with_setting s f o) f ≡ o }
    ensures others { (s : Settings) (f g : Flag) (o : Option Setting) → f ≢ g
        → setting_of (with_setting s f o) g ≡ setting_of s g }
{}
