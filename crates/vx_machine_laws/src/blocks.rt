ghost use Rattle.vx_machine_laws.specs.Blocks.{BlocksConduct, BlocksMove, SidesLie, DelaysLast};

/// Full blocks and lamps conduct, and nothing else does. Each cell in the way of a piston moves,
/// breaks, is empty or stays, as the rules list them.
pub fn blocks_conduct_and_move()
    ensures conduct { BlocksConduct }
    ensures mobility { BlocksMove }
{}

/// East is one x further, south one z and up one y. A torch that stands is mounted on what lies
/// below it, and one that hangs on what lies on its side. A delay has one to four ticks.
pub fn sides_lie_and_delays_last()
    ensures sides { SidesLie }
    ensures delays { DelaysLast }
{}
