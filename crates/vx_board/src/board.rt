ghost use Rattle.logbook.specs.Pages.{Book};

use crate::naming::Naming;
use std::marker::Brand;

/// Names a desk that threads share in the types of what belongs to it: by its first policy, and by
/// the book of its edits.
pub trait Board: Naming {
    ghost edits: { Book };
}

impl Board for Brand {
    ghost edits = { record { number = 0; log_name = 0; cells_name = 0 } };
}
