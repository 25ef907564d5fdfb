// What goals say of runs.
ghost use Rattle.program_goals.specs.Examples.{ExampleGoals};
ghost use Rattle.program_goals.specs.Laws.{
  FalsifiedGoalsFail,
  GoalsAreExact,
  GoalsAreExactByCheck,
  GoalsAreExactForRuns,
  GoalsAreInOrder,
  GoalsAreWellFormed,
  GoalsHaveGivenNames,
  SegmentsAreWords,
  StopsHaveGoals,
  ValidGoalsRunWell,
  ValidGoalsSuffice,
};

/// Where all goals of functions that call no others are valid, every run of them goes well.
pub fn valid_goals_run_well()
    ensures { ValidGoalsRunWell }
{}

/// Where all goals of functions are valid, no segment run of them goes wrong.
pub fn valid_goals_suffice()
    ensures { ValidGoalsSuffice }
{}

/// There is one goal for each check, in order; they are numbered from 0.
pub fn goals_are_in_order()
    ensures { GoalsAreInOrder }
{}

/// A goal is valid exactly where no run of its word fails at its check.
pub fn goals_are_exact()
    ensures { GoalsAreExact }
{}

/// Goals for a kind of check at a line are valid exactly where no segment run goes wrong so.
pub fn goals_are_exact_for_runs()
    ensures { GoalsAreExactForRuns }
{}

/// Values that falsify a goal are a world from which a segment run goes wrong as the goal's check does.
pub fn falsified_goals_fail()
    ensures { FalsifiedGoalsFail }
{}

/// Each goal is valid exactly where no segment run goes wrong at its check.
pub fn goals_are_exact_by_check()
    ensures { GoalsAreExactByCheck }
{}

/// Each segment run that goes wrong does so at the check of a goal.
pub fn stops_have_goals()
    ensures { StopsHaveGoals }
{}

/// Goals are well formed.
pub fn goals_are_well_formed()
    ensures { GoalsAreWellFormed }
{}

/// All free names of a goal were given out.
pub fn goals_have_given_names()
    ensures { GoalsHaveGivenNames }
{}

/// The segment runs of a function are the runs of its word.
pub fn segments_are_words()
    ensures { SegmentsAreWords }
{}

/// The goals of the examples are those worked out by hand.
pub fn example_goals()
    ensures { ExampleGoals }
{}
