//! What is known of levels that agree with one another.
ghost use Rattle.vx_levels.specs.Consistency.{ConsistentIsExact, ExactIsConsistent};

/// Levels of which each agrees with those that its dust links to are right, and such are all that
/// are right.
pub fn levels_agree()
    ensures exact { ConsistentIsExact }
    ensures agree { ExactIsConsistent }
{}
