// What is so of havoc.
ghost use Rattle.memory_calls.specs.HavocLaws.{HavocRuns, StaysMean};
ghost use Rattle.memory_calls.specs.Sorts.{RunsKeepSorts, SortedPlacesHoldNumbers};

/// From slots that stand for a world, the runs of havoc come to the worlds that a run may go on in, and the other way round.
pub fn havoc_runs()
    ensures { HavocRuns }
{}

/// The formulas of what stays are true exactly where all that stays by the sets of behaviors that are assumed.
pub fn stays_mean()
    ensures { StaysMean }
{}

/// A step in which all is good keeps the sorts of its slots.
pub fn runs_keep_sorts()
    ensures { RunsKeepSorts }
{}

/// In slots of their sorts, places of no memory hold numbers.
pub fn sorted_places_hold_numbers()
    ensures { SortedPlacesHoldNumbers }
{}
