// What is so of words of statements and of functions with memory. What is asked of loops and calls is given.
ghost use Rattle.memory_functions.specs.GoodLaws.{CallsAreGood, CallsStay, FunctionsAreBracketed, FunctionsAreGood, LoopsStay, WordsAreGood, WordsStay};

use crate::others::OtherStatements;

/// All that stands in the word of a statement is good.
pub fn words_are_good<O: OtherStatements>()
    ensures { WordsAreGood (record { loop_fits = O.loop_fits; call_fits = O.call_fits }) }
{}

/// All that stands in the word of a function is good.
pub fn functions_are_good<O: OtherStatements>()
    ensures { FunctionsAreGood (record { loop_fits = O.loop_fits; call_fits = O.call_fits }) }
{}

/// The word of a statement ends the blocks that it makes.
pub fn words_stay<O: OtherStatements>()
    ensures { WordsStay (record { loop_fits = O.loop_fits; call_fits = O.call_fits }) }
{}

/// The word of a function is bracketed.
pub fn functions_are_bracketed<O: OtherStatements>()
    ensures { FunctionsAreBracketed (record { loop_fits = O.loop_fits; call_fits = O.call_fits }) }
{}

/// The word of a loop ends the blocks that it makes, if its pass does.
pub fn loops_stay()
    ensures { LoopsStay }
{}

/// The word of a call ends the blocks that it makes.
pub fn calls_stay()
    ensures { CallsStay }
{}

/// All that stands in the word of a call is good, if its result goes to cells of kinds of the file or to a temporary.
pub fn calls_are_good()
    ensures { CallsAreGood }
{}
