// What is so of runs of programs whose statements keep to the kinds.
ghost use Rattle.typed_runs.specs.Examples.{SmallProgramFits};
ghost use Rattle.typed_runs.specs.Laws.{LevelsKeep, RunsLeaveWell};

/// At each level bodies and loops leave alone what their texts don't set and what the sets in force don't let change, and each variable, temporary and cell
/// holds a value of its kind.
pub fn levels_keep()
    ensures { LevelsKeep }
{}

/// A run that returns, from a good state and with arguments of their kinds, leaves a good state and gives a result of its kind.
pub fn runs_leave_well()
    ensures { RunsLeaveWell }
{}

/// A small program with pointers, a loop and a call meets what is asked.
pub fn small_program_fits()
    ensures { SmallProgramFits }
{}
