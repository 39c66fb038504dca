ghost use Rattle.std.specs.Prelude.{◌≡◌, IfSome, Some};
ghost use Rattle.vx_flag.specs.State.{state_text, state_of, strictest};

use std::fmt;

/// What a region sets a flag to.
#[derive(Clone, Copy, Debug, PartialEq, Eq)]
pub enum State {
    Allow,
    Deny,
}

impl State {
    /// The text of this state (docs/FORMATS.md).
    pub fn text(self) -> &'static str
        ensures { result.now ≡ state_text self }
    {
        match self {
            State::Allow => "allow",
            State::Deny => "deny",
        }
    }

    /// The state that has this text, letter for letter.
    #[tactic(auto, unfolding(crate::specs::State::state_of))]
    pub fn read(text: &str) -> Option<State>
        ensures found { IfSome result (λ s. state_text s ≡ text.now) }
        ensures only { (s : State) → state_text s ≡ text.now → result ≡ Some s }
        ensures named { result ≡ state_of text.now }
    {
        match text {
            "allow" => Some(State::Allow),
            "deny" => Some(State::Deny),
            _ => None,
        }
    }
}

impl fmt::Display for State {
    ghost output = { λ s. Some (state_text s) };

    fn fmt<W: fmt::Write>(&self, f: &mut fmt::Formatter<W>) -> fmt::Result {
        f.pad(self.text())
    }
}

/// Deny where one of the two denies, else allow.
pub fn strictest(a: State, b: State) -> State
    ensures { result ≡ strictest a b }
{
    match (a, b) {
        (State::Allow, State::Allow) => State::Allow,
        _ => State::Deny,
    }
}
