ghost use Rattle.std.specs.Prelude.{◌≡◌, ◌≤◌, length, IfSome, Some};
ghost use Rattle.vx_base.specs.Digits.{small_word};
ghost use Rattle.vx_block.specs.States.{ticks_of};

/// After how many ticks a repeater follows its input.
#[derive(Clone, Copy, Debug, PartialEq, Eq)]
pub enum Delay {
    One,
    Two,
    Three,
    Four,
}

impl Delay {
    /// The ticks of this delay, 1 to 4.
    pub fn ticks(self) -> u8
        ensures { result ≡ ticks_of self }
    {
        match self {
            Delay::One => 1,
            Delay::Two => 2,
            Delay::Three => 3,
            Delay::Four => 4,
        }
    }

    /// The word of this delay: its ticks as a digit.
    pub(crate) fn word(self) -> &'static str
        ensures word { result.now ≡ small_word (ticks_of self) }
        ensures short { length result.now ≤ 1 }
    {
        match self {
            Delay::One => "1",
            Delay::Two => "2",
            Delay::Three => "3",
            Delay::Four => "4",
        }
    }

    /// The delay that has this word: a digit from 1 to 4.
    pub(crate) fn read(word: &str) -> Option<Delay>
        ensures found { IfSome result (λ d. small_word (ticks_of d) ≡ word.now) }
        ensures only { (d : Delay) → small_word (ticks_of d) ≡ word.now → result ≡ Some d }
    {
        match word {
            "1" => Some(Delay::One),
            "2" => Some(Delay::Two),
            "3" => Some(Delay::Three),
            "4" => Some(Delay::Four),
            _ => None,
        }
    }
}
