// What is so of the core program of a program.
ghost use Rattle.normal_programs.specs.Laws.{CoreRunsAsSpelled};

/// The core program that is made of a program has its outcomes, and no effect, connective or choice is left in an expression.
pub fn core_runs_as_spelled()
    ensures { CoreRunsAsSpelled }
{}
