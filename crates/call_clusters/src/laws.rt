// What is so of functions that reach each other.
ghost use Rattle.call_clusters.specs.Laws.{ReachingIsByCalls};

/// A function reaches another one exactly where it calls one that does: in whatever number of calls, through whatever functions.
pub fn reaching_is_by_calls()
    ensures { ReachingIsByCalls }
{}
