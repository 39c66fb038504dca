ghost use Rattle.vx_tick.specs.Laws.{OfTicks};
ghost use Rattle.vx_tick_laws.specs.MovedCells.{PushesPush, DrawsDraw};

/// What a move that is made leaves in its cells. After a push the piston is out, with its head
/// before it, and what stood in each cell of the row stands one further. After a drawing back the
/// piston is in, what a sticky one pulls stands where the head was, and behind that is air. What is
/// carried has become its next part.
pub fn moves_carry_their_cells()
    ensures pushes { OfTicks PushesPush }
    ensures draws { OfTicks DrawsDraw }
{}
