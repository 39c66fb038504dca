ghost use Rattle.logbook.specs.Pages.{Book};

use std::marker::Brand;

/// Names a list of stamped values in the types of the marks that belong to it, by its book. Each
/// call of a program picks it.
pub trait History {
    ghost book: { Book };
}

impl History for Brand {
    ghost book = { record { number = 0; log_name = 0; cells_name = 0 } };
}
