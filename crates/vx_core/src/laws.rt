ghost use Rattle.vx_core.specs.Laws.{ChangesNothing, IsAlwaysARun, VersionsGrow, WindowsAreOpen, OutcomesAreByTheRules, ByTheRulesIsReached, RunsAreReached};

/// For every opening and every list of events, in whatever order: the chronicle is a run of the
/// one-threaded rules. No edit counts in its first version, which is the opening's policy, and each
/// version is the policy after some first edits of those that were accepted, no fewer than the one
/// before it. The entries of each sector are a window over its part of the last map by the version
/// that stands since. An event that may not happen changes nothing.
pub fn every_order_is_a_run()
    ensures nothing { ChangesNothing }
    ensures run { IsAlwaysARun }
    ensures grown { VersionsGrow }
    ensures open { WindowsAreOpen }
{}

/// What stands after lists of events is exactly what the rules give, for every opening: ticks that
/// are a run, edits that were accepted, versions of the policy that grow by them, and open windows,
/// where there is room for all of it. Some list of events leaves it, with all sectors at home. So
/// what is said of the core for every list of events is said of every record that is a run, whoever
/// made it, and in whatever order.
pub fn every_run_is_reached()
    ensures rules { OutcomesAreByTheRules }
    ensures reached { ByTheRulesIsReached }
    ensures runs { RunsAreReached }
{}
