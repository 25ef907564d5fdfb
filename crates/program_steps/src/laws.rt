// What is so of words. What is asked of loops and calls, and what they do, is given.
ghost use Rattle.program_steps.specs.Laws.{EntriesStart, FalsifiedFail, FormsAreGood, FunctionsAreGood, FunctionsRun, GoalsSuffice, StartsEnter, StatementsRun, WordsAreGood, WorldsHaveSlots};

use crate::others::OtherStatements;

/// Forms, numbers and facts over leaves say in a step what they are in a state.
pub fn forms_are_good()
    ensures { FormsAreGood }
{}

/// All that stands in the word of a statement is good.
pub fn words_are_good()
    ensures { WordsAreGood }
{}

/// All that stands in the word of a function is good.
pub fn functions_are_good()
    ensures { FunctionsAreGood }
{}

/// The segment runs of statements are the runs of their words, if those of loops and calls are.
pub fn statements_run<O: OtherStatements>()
    ensures { StatementsRun (record { loop_fits = O.loop_fits; call_fits = O.call_fits }) }
{}

/// The segment runs of a function are the runs of its word, if those of loops and calls are.
pub fn functions_run<O: OtherStatements>()
    ensures { FunctionsRun (record { loop_fits = O.loop_fits; call_fits = O.call_fits }) }
{}

/// Each world in which a function is entered has slots that stand for it.
pub fn worlds_have_slots()
    ensures { WorldsHaveSlots }
{}

/// Each world in which a function is entered as it asks for has slots in which its word may start.
pub fn entries_start()
    ensures { EntriesStart }
{}

/// Where all goals of its word are valid, no segment run of a function goes wrong.
pub fn goals_suffice<O: OtherStatements>()
    ensures { GoalsSuffice (record { loop_fits = O.loop_fits; call_fits = O.call_fits }) }
{}

/// Slots in which the word of a function may start are those of a world in which it is entered as it asks for.
pub fn starts_enter()
    ensures { StartsEnter }
{}

/// Values that falsify a goal are a world from which a segment run of the function goes wrong at the goal's check.
pub fn falsified_fail<O: OtherStatements>()
    ensures { FalsifiedFail (record { loop_fits = O.loop_fits; call_fits = O.call_fits }) }
{}
