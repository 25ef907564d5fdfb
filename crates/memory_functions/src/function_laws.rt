// What is so of functions with memory and of their words. What is asked of loops and calls, and what they do, is given.
ghost use Rattle.memory_functions.specs.FunctionLaws.{FunctionsRun, ParametersArrive};

use memory_statements::OtherStatements;

/// The word that makes the blocks of parameters ends in slots that stand for the world of the body.
pub fn parameters_arrive<O: OtherStatements>()
    ensures { ParametersArrive (record { loop_fits = O.loop_fits; call_fits = O.call_fits }) }
{}

/// The segment runs of a function are the runs of its word, if those of loops and calls are.
pub fn functions_run<O: OtherStatements>()
    ensures { FunctionsRun (record { loop_fits = O.loop_fits; call_fits = O.call_fits }) }
{}
