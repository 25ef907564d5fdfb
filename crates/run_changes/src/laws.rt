// What is so of whole runs.
ghost use Rattle.run_changes.specs.Laws.{RunsChangeWhatTheyMay, CoreRunsChangeWhatTheyMay, RunsKeepPromises, CoreRunsKeepPromises};

/// A run that returns, or whose turns are spent, has changed only what the clauses of its function allow.
pub fn runs_change_what_they_may()
    ensures { RunsChangeWhatTheyMay }
{}

/// The same of core programs, whether they were spelled or not.
pub fn core_runs_change_what_they_may()
    ensures { CoreRunsChangeWhatTheyMay }
{}

/// A run that returns has kept the promises of its function.
pub fn runs_keep_promises()
    ensures { RunsKeepPromises }
{}

/// The same of core programs.
pub fn core_runs_keep_promises()
    ensures { CoreRunsKeepPromises }
{}
