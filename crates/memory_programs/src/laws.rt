// What goals say of the runs of programs with memory.
ghost use Rattle.memory_programs.specs.Laws.{
  FalsifiedGoalsFail,
  GoalsAreExact,
  GoalsAreExactByCheck,
  GoalsAreInOrder,
  SegmentsAreWords,
  StopsAreExact,
  StopsHaveGoals,
  ValidGoalsRunWell,
  ValidGoalsSuffice,
};

/// Where all goals of functions are valid, no segment run of them goes wrong.
pub fn valid_goals_suffice()
    ensures { ValidGoalsSuffice }
{}

/// Where all goals of functions that call no others are valid, every run of them goes well.
pub fn valid_goals_run_well()
    ensures { ValidGoalsRunWell }
{}

/// The segment runs of a function are the runs of its word.
pub fn segments_are_words()
    ensures { SegmentsAreWords }
{}

/// There is one goal for each check, in order; they are numbered from 0.
pub fn goals_are_in_order()
    ensures { GoalsAreInOrder }
{}

/// A goal is valid exactly where no run of its word fails at its check.
pub fn goals_are_exact()
    ensures { GoalsAreExact }
{}

/// Each goal is valid exactly where no segment run goes wrong at its check.
pub fn goals_are_exact_by_check()
    ensures { GoalsAreExactByCheck }
{}

/// Each segment run that goes wrong does so at the check of a goal.
pub fn stops_have_goals()
    ensures { StopsHaveGoals }
{}

/// Values that falsify a goal are a world from which a segment run goes wrong as the goal's check does.
pub fn falsified_goals_fail()
    ensures { FalsifiedGoalsFail }
{}

/// Goals for a kind of check at a line are valid exactly where no segment run goes wrong so.
pub fn stops_are_exact()
    ensures { StopsAreExact }
{}
