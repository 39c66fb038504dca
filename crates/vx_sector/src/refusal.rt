ghost use Rattle.std.specs.Prelude.{◌≡◌, Some, None, IfSome};
ghost use Rattle.vx_sector.specs.Texts.{refusal_text};

use std::error::Error;
use std::fmt;
use vx_decide::Rule;

/// Why a command was not carried out. Each has a number; docs/FORMATS.md has the table.
#[derive(Clone, Copy, Debug, PartialEq, Eq)]
pub enum Refusal {
    /// The position is not of this sector.
    OutOfWorld,
    /// As many commands were recorded as may be: 2^40.
    HistoryFull,
    /// The policy denies it, by this rule.
    Denied(Rule),
    /// Something stands where a part was to be placed.
    Occupied,
    /// There is nothing to break.
    Nothing,
    /// No lever is there to be turned.
    NotLever,
    /// No chest is there to be reached into.
    NotChest,
    /// The chest to be broken holds something.
    NotEmpty,
    /// An extended piston and its head do not break.
    Extended,
    /// Bedrock does not break.
    Unbreakable,
    /// A chest has the slots 0 to 26.
    NoSlot,
    /// The slot holds another item.
    OtherItem,
    /// The count is 0, or greater than what the slot still takes or what it holds.
    BadCount,
    /// There is no memory for the record; nothing was done and nothing recorded.
    NoMemory,
}

impl Refusal {
    ghost use Rattle.vx_sector.specs.Windows.{leaves_trace};

    /// Whether it is recorded with its command.
    pub fn leaves_trace(&self) -> bool
        ensures { result ≡ leaves_trace self.now }
    {
        !matches!(
            self,
            Refusal::OutOfWorld | Refusal::HistoryFull | Refusal::NoMemory
        )
    }

    /// Its number and its words, where they name no rule, and so are the same each time.
    pub fn words(&self) -> Option<&'static str>
        ensures words { IfSome result (λ words. words.now ≡ refusal_text self.now) }
        ensures none { result ≡ None → (rule : Rule) × (self.now ≡ Refusal.Denied rule) }
    {
        match self {
            Refusal::OutOfWorld => Some("refused 1 out of world"),
            Refusal::HistoryFull => Some("refused 13 history"),
            Refusal::Denied(_) => None,
            Refusal::Occupied => Some("refused 3 occupied"),
            Refusal::Nothing => Some("refused 4 nothing"),
            Refusal::NotLever => Some("refused 5 not lever"),
            Refusal::NotChest => Some("refused 6 not chest"),
            Refusal::NotEmpty => Some("refused 7 not empty"),
            Refusal::Extended => Some("refused 8 extended"),
            Refusal::Unbreakable => Some("refused 9 unbreakable"),
            Refusal::NoSlot => Some("refused 10 no slot"),
            Refusal::OtherItem => Some("refused 11 other item"),
            Refusal::BadCount => Some("refused 12 bad count"),
            Refusal::NoMemory => Some("refused 14 memory"),
        }
    }
}

/// The number and the words of each refusal. A script never prints those of `HistoryFull` and
/// `NoMemory`, since it ends by a fault there; they are for whoever else runs a sector.
impl fmt::Display for Refusal {
    ghost use Rattle.vx_sector.specs.Texts.{refusal_text};

    ghost output = { λ refusal. Some (refusal_text refusal) };

    fn fmt<W: fmt::Write>(&self, f: &mut fmt::Formatter<W>) -> fmt::Result {
        match self {
            Refusal::Denied(rule) => write!(f, "refused 2 {rule}"),
            _ => match self.words() {
                Some(words) => f.write_str(words),
                None => unreachable!(),
            },
        }
    }
}

impl Error for Refusal {}
