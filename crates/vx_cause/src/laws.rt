ghost use Rattle.vx_cause.specs.Laws.{DenialIsOfFirstDenied, FirstDeniedIsDenial, PermittedCellByCell, PlotHolds, BeatenByPermitted, BeatenStillBeats, MovedAreApart, MovedShareNoCell};

/// A move is denied at the first of its cells that the policy denies to its machine, by the rule of
/// that cell's verdict; where there is none, and only there, each of its cells is permitted.
pub fn first_denied_cell_decides()
    ensures denied { DenialIsOfFirstDenied }
    ensures first { FirstDeniedIsDenial }
    ensures permitted { PermittedCellByCell }
{}

/// Where the policy admits no machine from outside to a plot, no move of a piston outside it that
/// the policy permits takes a cell of the plot.
pub fn plots_hold()
    ensures { PlotHolds }
{}

/// A move is beaten by a piston whose own move is permitted, and a permitted move beats each later
/// one that wants a cell of it, whether it is beaten itself or not.
pub fn denied_moves_beat_nothing()
    ensures by { BeatenByPermitted }
    ensures beaten { BeatenStillBeats }
{}

/// Two moves that are permitted and not beaten have no cell in common; of two that want one cell at
/// most one is made.
pub fn moved_cells_are_apart()
    ensures cells { MovedAreApart }
    ensures moves { MovedShareNoCell }
{}
