// What is so of a program with its checks.
ghost use Rattle.checks_added.specs.Laws.{ChecksRunAsSpelled};

/// The core program of a program, with its checks, has the outcome of the program as spelled.
pub fn checked_runs_as_spelled()
    ensures { ChecksRunAsSpelled }
{}
