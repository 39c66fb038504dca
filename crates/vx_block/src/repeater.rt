ghost use Rattle.std.specs.Prelude.{◌≡◌, ℕ, ◌<◌, ◌≤◌, Bool, [], ◌∷◌, ◌++◌, length, IfSome, Some};
ghost use Rattle.vx_base.specs.Digits.{small_word};
ghost use Rattle.vx_block.specs.Cut.{colon, joined, all_joined};
ghost use Rattle.vx_block.specs.Repeating.{Repeating, IsRepeating, repeater_words};
ghost use Rattle.vx_block.specs.States.{ticks_of, on_word};

use crate::cut::cut;
use crate::delay::Delay;
use crate::joined::{three_words, two_words};
use crate::side::Side;
use crate::words::{dir_word, on_word, read_on};
use arrayvec::ArrayString;
use std::marker::Model;
use vx_base::{read_small, small_word};

/// A repeater: the side of its front, its delay, whether it is on, and how many ticks are left of a
/// count, fewer than its delay.
#[derive(Clone, Copy, Debug, PartialEq, Eq)]
pub struct Repeater {
    facing: Side,
    delay: Delay,
    on: bool,
    wait: u8,
}

impl Model for Repeater {
    ghost use Rattle.std.specs.Prelude.{◌<◌};
    ghost use Rattle.vx_block.specs.States.{ticks_of};
    ghost use Rattle.vx_block.specs.Repeating.{Repeating};

    ghost Value = { Repeating };

    ghost view = { λ a. record { facing = a.facing; delay = a.delay; on = a.on; wait = a.wait } };

    ghost invariant = { λ a. a.wait < ticks_of a.delay };

    ghost inverse = { λ r.
        record { facing = r.facing; delay = r.delay; on = r.on; wait = r.wait } };
}

impl Repeater {
    /// A repeater in this state.
    pub fn new(facing: Side, delay: Delay, on: bool, wait: u8) -> Repeater
        requires { wait < ticks_of delay }
        ensures { result ≡ record { facing = facing; delay = delay; on = on; wait = wait } }
    {
        Repeater {
            facing,
            delay,
            on,
            wait,
        }
    }

    /// The side of its front.
    pub fn facing(self) -> Side
        ensures { result ≡ self.facing }
    {
        self.facing
    }

    /// After how many ticks it follows its input.
    pub fn delay(self) -> Delay
        ensures { result ≡ self.delay }
    {
        self.delay
    }

    /// Whether it is on.
    pub fn is_on(self) -> bool
        ensures { result ≡ self.on }
    {
        self.on
    }

    /// How many ticks are left of a count, 0 where it counts none.
    pub fn wait(self) -> u8
        ensures value { result ≡ self.wait }
        ensures most { result < ticks_of self.delay }
    {
        self.wait
    }

    /// The repeater whose words, joined by colons, are this text.
    pub(crate) fn read(text: &str) -> Option<Repeater>
        ensures found { IfSome result
            (λ r. IsRepeating r × (all_joined (repeater_words r) ≡ text.now)) }
        ensures only { (r : Repeating) → IsRepeating r
            → all_joined (repeater_words r) ≡ text.now → result ≡ Some r }
    {
        let (facing, rest) = cut(text);
        read_facing(Side::read(facing)?, rest?)
    }

    /// The words of this repeater, joined by colons.
    pub(crate) fn text(self) -> ArrayString<32>
        ensures text { result.bytes ≡ all_joined (repeater_words self) }
        ensures short { length result.bytes ≤ 13 }
    {
        let state = two_words(on_word(self.on), small_word(self.wait));
        three_words(dir_word(self.facing.dir()), self.delay.word(), &state)
    }
}

// The repeater with its front on this side whose other words, joined by colons, are this text.
fn read_facing(facing: Side, text: &str) -> Option<Repeater>
    ensures found { IfSome result (λ r. IsRepeating r × (r.facing ≡ facing)
        × (joined (small_word (ticks_of r.delay)) (on_word r.on ∷ small_word r.wait ∷ [])
        ≡ text.now)) }
    ensures only { (r : Repeating) → IsRepeating r → r.facing ≡ facing
        → joined (small_word (ticks_of r.delay)) (on_word r.on ∷ small_word r.wait ∷ []) ≡ text.now
        → result ≡ Some r }
{
    let (delay, rest) = cut(text);
    let delay = Delay::read(delay)?;
    let (on, wait) = read_count(rest?)?;
    if wait < delay.ticks() {
        Some(Repeater::new(facing, delay, on, wait))
    } else {
        None
    }
}

// Whether a repeater is on, and what is left of its count, where this text tells both.
fn read_count(text: &str) -> Option<(bool, u8)>
    ensures found { IfSome result
        (λ c. (c.1 < 16) × (on_word c.0 ++ colon ∷ small_word c.1 ≡ text.now)) }
    ensures only { (on : Bool) → (wait : ℕ) → wait < 16
        → on_word on ++ colon ∷ small_word wait ≡ text.now → result ≡ Some (on, wait) }
{
    let (on, wait) = cut(text);
    Some((read_on(on)?, read_small(wait?)?))
}
