// What is so of runs of programs over plain integers.
ghost use Rattle.plain_runs.specs.Laws.{LevelsKeep, RunsLeaveWell};

/// At each level bodies and loops leave alone what their texts don't set and what the sets in force don't let change, and each slot holds a number of its kind.
pub fn levels_keep()
    ensures { LevelsKeep }
{}

/// A run that returns, from a well-formed state and with arguments of their kinds, leaves a well-formed state and gives a result of its kind.
pub fn runs_leave_well()
    ensures { RunsLeaveWell }
{}
