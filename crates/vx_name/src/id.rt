ghost use Rattle.std.specs.Prelude.{◌≡◌, Some, None, MatchResult};
ghost use Rattle.vx_name.specs.Words.{IsId, read_id};

use crate::word::{Alphabet, read_word};
use arrayvec::ArrayString;
use std::fmt;
use thiserror::Error;

/// How many bytes an id may have.
const MAX_ID_BYTES: usize = 32;

/// The id of a region: 1 to 32 letters, digits, `_` or `-`, kept in lower case.
#[derive(Clone, Copy, Debug, PartialEq, Eq, Hash)]
pub struct Id {
    text: ArrayString<MAX_ID_BYTES>,
    pub ghost spelled: { IsId text.bytes },
}

/// The text spells no id. Nothing here prints the words; they are for callers that pass it on.
#[derive(Clone, Copy, Debug, PartialEq, Eq, Error)]
#[error("bad id")]
pub struct BadId;

impl Id {
    /// The id that the text spells, letter case aside.
    #[tactic(auto, unfolding(crate::specs::Words::read_id))]
    pub fn read(text: &str) -> Result<Id, BadId>
        ensures { MatchResult result
            (λ id. read_id text.now ≡ Some id.text.bytes)
            (λ _. read_id text.now ≡ None) }
    {
        match read_word(text, Alphabet::Id) {
            Some(text) => Ok(Id { text }),
            None => Err(BadId),
        }
    }

    /// What holds of every id: it is 1 to 32 small letters, digits, `_` or `-`.
    pub fn spelling(&self)
        ensures { IsId self.now.text.bytes }
    {}

    /// The id in lower case.
    pub fn as_str(&self) -> &str
        ensures { result.now ≡ self.now.text.bytes }
    {
        self.text.as_str()
    }
}

impl fmt::Display for Id {
    ghost output = { λ id. Some id.text.bytes };

    fn fmt<W: fmt::Write>(&self, f: &mut fmt::Formatter<W>) -> fmt::Result {
        f.pad(self.as_str())
    }
}
