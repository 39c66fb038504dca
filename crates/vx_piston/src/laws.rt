ghost use Rattle.vx_piston.specs.Laws.{OfCandidates, BeginsWithPiston, TakesFewCells, PushesFewCells, StaysInside, LiesInLine, TakesEachOnce, RestlessHeeds, OthersStay};

/// What a piston would move begins with the cell of the piston itself.
pub fn moves_begin_with_pistons()
    ensures { OfCandidates BeginsWithPiston }
{}

/// A move takes at most 14 cells. A push takes the piston's, at most twelve that move, and one that
/// is empty or breaks.
pub fn moves_are_short()
    ensures cells { OfCandidates TakesFewCells }
    ensures pushed { OfCandidates PushesFewCells }
{}

/// A move takes cells of the world alone.
pub fn moves_stay_inside()
    ensures { OfCandidates StaysInside }
{}

/// The cells that a move takes lie one behind the other, as the piston faces; none is taken twice.
pub fn moves_are_lines()
    ensures steps { OfCandidates LiesInLine }
    ensures once { OfCandidates TakesEachOnce }
{}

/// Whether a piston is restless is decided by how cells are built within four steps of it, and by
/// what is shown, and which dust has power, beside it and beside a conductor that is beside it. No
/// other piston moves.
pub fn restless_pistons_move()
    ensures heeds { RestlessHeeds }
    ensures others { OthersStay }
{}
