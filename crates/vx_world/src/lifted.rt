ghost use Rattle.std.specs.Prelude.{◌≡◌, ◌^◌, ◌<◌, ◌≤◌, vec_len};
ghost use Rattle.vx_windows.specs.Limits.{most_players};

use crate::books::Books;
use crate::seats::Seats;
use crate::slot::Slot;
use vx_keeper::Places;

/// A world that has ended: its sectors out of their locks, in order of their numbers, each at home
/// or away, and its books.
#[derive(Drop)]
pub struct Lifted<A: Places, B: Seats> {
    pub(crate) slots: Vec<Slot<A>>,
    pub(crate) books: Books<A, B>,
    pub(crate) seats: u8,
    ghost all_here: { vec_len slots ≡ A.all },
    ghost few: { A.all < 2 ^ 32 },
    ghost seated: { seats ≡ B.all },
    ghost bounded: { B.all ≤ most_players },
}

impl<A: Places, B: Seats> Lifted<A, B> {
    // A world with these sectors and books, and so many seats.
    pub(crate) fn new(slots: Vec<Slot<A>>, books: Books<A, B>, seats: u8) -> Lifted<A, B>
        requires all_here { vec_len slots ≡ A.all }
        requires few { A.all < 2 ^ 32 }
        requires seated { seats ≡ B.all }
        requires bounded { B.all ≤ most_players }
    {
        Lifted {
            slots,
            books,
            seats,
        }
    }
}
