ghost use Rattle.vx_places.specs.Laws.{NoStepsIsOnePlace, OneStepIsOneMore};

/// No steps lead from one position to another exactly where they are one position.
pub fn no_steps_is_one_place()
    ensures { NoStepsIsOnePlace }
{}

/// From a position next to one from which so many steps lead somewhere, at most one more leads
/// there.
pub fn one_step_is_one_more()
    ensures { OneStepIsOneMore }
{}
