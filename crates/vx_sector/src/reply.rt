ghost use Rattle.std.specs.Prelude.{◌≡◌, Some, IfOk, IfSome};
ghost use Rattle.vx_sector.specs.Texts.{reply_text};

use crate::contents::Contents;
use crate::sight::Sight;
use std::alloc::AllocError;
use std::fmt;
use vx_block::Cell;
use vx_decide::Rule;

/// The answer to a command that was carried out.
#[derive(Debug, PartialEq, Eq, Drop)]
pub enum Reply {
    /// The cell that a look showed.
    Seen(Sight),
    /// What the command does is done, by leave of the rule.
    Done(Rule),
    /// What the chest holds, slot by slot, shown by leave of the rule.
    Opened(Rule, Contents),
}

impl Reply {
    ghost use Rattle.vx_sector.specs.Texts.{reply_text};

    /// A copy of the reply.
    pub fn try_clone(&self) -> Result<Reply, AllocError>
        ensures { IfOk result (λ copy. copy ≡ self.now) }
    {
        match self {
            Reply::Seen(seen) => Ok(Reply::Seen(*seen)),
            Reply::Done(rule) => Ok(Reply::Done(*rule)),
            Reply::Opened(rule, contents) => Ok(Reply::Opened(*rule, contents.try_clone()?)),
        }
    }

    /// Its words, where it names no region and shows a cell without a state, if any, and so are the
    /// same each time.
    pub fn words(&self) -> Option<&'static str>
        ensures { IfSome result (λ words. words.now ≡ reply_text self.now) }
    {
        match self {
            Reply::Seen(seen) => words_of(seen.cell()),
            Reply::Done(Rule::Default) => Some("ok default"),
            _ => None,
        }
    }
}

impl fmt::Display for Reply {
    ghost use Rattle.vx_sector.specs.Texts.{reply_text};

    ghost output = { λ reply. Some (reply_text reply) };

    fn fmt<W: fmt::Write>(&self, f: &mut fmt::Formatter<W>) -> fmt::Result {
        match self {
            Reply::Seen(seen) => write!(f, "seen {seen}"),
            Reply::Done(rule) => write!(f, "ok {rule}"),
            Reply::Opened(rule, contents) => write!(f, "ok {rule} holds{contents}"),
        }
    }
}

// The words of a reply that shows the cell, where that has no state.
fn words_of(cell: Cell) -> Option<&'static str>
    ensures { IfSome result (λ words. words.now ≡ reply_text (Reply.Seen cell)) }
{
    match cell {
        Cell::Air => Some("seen air"),
        Cell::Stone => Some("seen stone"),
        Cell::Dirt => Some("seen dirt"),
        Cell::Planks => Some("seen planks"),
        Cell::Glass => Some("seen glass"),
        Cell::Obsidian => Some("seen obsidian"),
        Cell::Bedrock => Some("seen bedrock"),
        Cell::Chest => Some("seen chest"),
        _ => None,
    }
}
