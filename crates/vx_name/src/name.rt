ghost use Rattle.std.specs.Prelude.{◌≡◌, Some, None, MatchResult};
ghost use Rattle.vx_name.specs.Words.{IsName, read_name};

use crate::word::{Alphabet, read_word};
use arrayvec::ArrayString;
use std::fmt;
use thiserror::Error;

/// How many bytes a name may have.
const MAX_NAME_BYTES: usize = 16;

/// The name of a player: 1 to 16 letters, digits or `_`, kept in lower case.
#[derive(Clone, Copy, Debug, PartialEq, Eq, Hash)]
pub struct Name {
    text: ArrayString<MAX_NAME_BYTES>,
    pub ghost spelled: { IsName text.bytes },
}

/// The text spells no name. Nothing here prints the words; they are for callers that pass it on.
#[derive(Clone, Copy, Debug, PartialEq, Eq, Error)]
#[error("bad name")]
pub struct BadName;

impl Name {
    /// The name that the text spells, letter case aside.
    #[tactic(auto, unfolding(crate::specs::Words::read_name))]
    pub fn read(text: &str) -> Result<Name, BadName>
        ensures { MatchResult result
            (λ name. read_name text.now ≡ Some name.text.bytes)
            (λ _. read_name text.now ≡ None) }
    {
        match read_word(text, Alphabet::Name) {
            Some(text) => Ok(Name { text }),
            None => Err(BadName),
        }
    }

    /// What holds of every name: it is 1 to 16 small letters, digits or `_`.
    pub fn spelling(&self)
        ensures { IsName self.now.text.bytes }
    {}

    /// The name in lower case.
    pub fn as_str(&self) -> &str
        ensures { result.now ≡ self.now.text.bytes }
    {
        self.text.as_str()
    }
}

impl fmt::Display for Name {
    ghost output = { λ name. Some name.text.bytes };

    fn fmt<W: fmt::Write>(&self, f: &mut fmt::Formatter<W>) -> fmt::Result {
        f.pad(self.as_str())
    }
}
