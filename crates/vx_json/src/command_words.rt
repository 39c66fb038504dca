ghost use Rattle.std.specs.Prelude.{Some};

use crate::place::Place;
use std::fmt;
use vx_sector::Cmd;

/// A command as a line of a script has it behind the name of its player: its words with single
/// spaces between, and its numbers with no leading zero.
#[derive(Clone, Copy, Debug)]
pub struct CommandWords {
    pub cmd: Cmd,
}

impl fmt::Display for CommandWords {
    ghost use Rattle.vx_json.specs.Commands.{cmd_text};

    ghost output = { λ words. Some (cmd_text words.cmd) };

    fn fmt<W: fmt::Write>(&self, f: &mut fmt::Formatter<W>) -> fmt::Result {
        let place = Place {
            pos: self.cmd.place(),
        };
        match self.cmd {
            Cmd::Look(_) => write!(f, "look {place}"),
            Cmd::Place(_, part) => {
                let text = part.text();
                let word = text.as_str();
                write!(f, "place {place} {word}")
            }
            Cmd::Break(_) => write!(f, "break {place}"),
            Cmd::Turn(_) => write!(f, "turn {place}"),
            Cmd::OpenChest(_) => write!(f, "open {place}"),
            Cmd::Put {
                slot,
                item,
                count,
                ..
            } => write!(f, "put {place} {slot} {item} {count}"),
            Cmd::Take { slot, count, .. } => write!(f, "take {place} {slot} {count}"),
        }
    }
}
