ghost use Rattle.vx_store.specs.MachineMarks.{words_of};

use crate::in_order::InOrder;
use crate::machine_marks::MachineMarks;
use crate::mark_kind::MarkKind;

/// The marks of one kind in a sector, which lends them.
#[derive(Drop)]
pub struct KindMarks<'a> {
    pub marks: &'a MachineMarks,
    pub kind: MarkKind,
}

impl<'a> InOrder for KindMarks<'a> {
    ghost words = { λ m. words_of m.kind m.marks.now };

    fn next_from(&self, from: u32) -> Option<u32> {
        self.marks.first_from(self.kind, from)
    }
}
