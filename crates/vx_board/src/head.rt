ghost use Rattle.std.specs.Prelude.{◌≡◌};
ghost use Rattle.vx_stamp.specs.Rules.{head_of};

use crate::board::Board;
use crate::told::Told;
use logbook::Word;
use std::marker::PhantomData;
use vx_stamp::Law;

/// Where edits are added to the history of a desk.
#[derive(Drop)]
pub struct Head<J: Board> {
    pub word: Word<Told, u64, Law>,
    of: PhantomData<J>,
    pub ghost head_is: { word ≡ head_of J.edits },
}

impl<J: Board> Head<J> {
    pub fn new(word: Word<Told, u64, Law>) -> Head<J>
        requires { word ≡ head_of J.edits }
    {
        Head {
            word,
            of: PhantomData,
        }
    }
}
