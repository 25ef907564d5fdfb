// What is so of statements with memory and of their words. What is asked of loops and calls, and what they do, is given.
ghost use Rattle.memory_statements.specs.StatementLaws.{StatementsRun};

use crate::others::OtherStatements;

/// The segment runs of statements are the runs of their words, if those of loops and calls are.
pub fn statements_run<O: OtherStatements>()
    ensures { StatementsRun (record { loop_fits = O.loop_fits; call_fits = O.call_fits }) }
{}
