ghost use Rattle.std.specs.Prelude.{◌≡◌, []};

use crate::board::Board;
use crate::view::View;

/// A view of a desk that has seen no edit.
#[derive(Drop)]
pub struct First<J: Board> {
    pub view: View<J>,
    pub ghost fresh: { view ≡ [] },
}
