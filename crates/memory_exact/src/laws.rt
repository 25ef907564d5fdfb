// What is so of goals of functions with memory. What is asked of loops and calls, and what they do, is given.
ghost use Rattle.memory_exact.specs.Laws.{FalsifiedGoalsFail, GoalsAreExact, GoalsAreExactByCheck, GoalsAreInOrder, StopsHaveGoals, ValidGoalsSuffice};

use crate::others::OtherStatements;

/// There is one goal for each check that is walked, in order.
pub fn goals_are_in_order()
    ensures { GoalsAreInOrder }
{}

/// A goal is valid exactly where no run of the function's word fails at its check.
pub fn goals_are_exact<O: OtherStatements>()
    ensures { GoalsAreExact (record { loop_fits = O.loop_fits; call_fits = O.call_fits }) }
{}

/// A goal is valid exactly where no segment run of the function goes wrong at its check.
pub fn goals_are_exact_by_check<O: OtherStatements>()
    ensures { GoalsAreExactByCheck (record { loop_fits = O.loop_fits; call_fits = O.call_fits }) }
{}

/// Each segment run that goes wrong does so at the check of a goal.
pub fn stops_have_goals<O: OtherStatements>()
    ensures { StopsHaveGoals (record { loop_fits = O.loop_fits; call_fits = O.call_fits }) }
{}

/// Where all goals are valid, no segment run of the function goes wrong.
pub fn valid_goals_suffice<O: OtherStatements>()
    ensures { ValidGoalsSuffice (record { loop_fits = O.loop_fits; call_fits = O.call_fits }) }
{}

/// Values that falsify a goal are a world from which a segment run of the function goes wrong as the goal's check does.
pub fn falsified_goals_fail<O: OtherStatements>()
    ensures { FalsifiedGoalsFail (record { loop_fits = O.loop_fits; call_fits = O.call_fits }) }
{}
