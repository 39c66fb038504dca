ghost use Rattle.vx_tick_laws.specs.Judged.{PistonsAreJudgedByPlace};

/// On a cell of a move the policy is asked about the machine that stands where the piston does:
/// what it says, and by which rule, is what holds there for that machine on the flag for pistons.
pub fn pistons_are_judged_by_place()
    ensures { PistonsAreJudgedByPlace }
{}
