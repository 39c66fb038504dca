ghost use Rattle.vx_piston.specs.ClaimLaws.{LaterIsBeaten, UnbeatenIsFirst, UnbeatenAreApart};

/// Of two moves that want one cell the later is beaten; a move that nothing beats wants no cell
/// that one before it wants. So no two moves that nothing beats want one cell.
pub fn unbeaten_moves_share_no_cell()
    ensures later { LaterIsBeaten }
    ensures first { UnbeatenIsFirst }
    ensures apart { UnbeatenAreApart }
{}
