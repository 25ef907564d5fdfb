// Laws of scopes with memory, each the contract of a function that does nothing.
ghost use Rattle.memory_statements.specs.ScopeLaws.{AllScopesEnd, ExitsRunBoth, NothingEnds, OpeningsRun, PlacesAreRemembered, ScopesEnd, ScopesRun};

/// The ways to make the variables of a block and the runs of its word go together.
pub fn openings_run()
    ensures { OpeningsRun }
{}

/// An open scope has one end, behind which slots stand for the world where its blocks have ended.
pub fn scopes_end()
    ensures { ScopesEnd }
{}

/// So have several ones.
pub fn all_scopes_end()
    ensures { AllScopesEnd }
{}

/// Where the same blocks live as before nothing ends.
pub fn nothing_ends()
    ensures { NothingEnds }
{}

/// Exits and returns run as their words do.
pub fn exits_run()
    ensures { ExitsRunBoth }
{}

/// What is so of where a statement stands is so where the present state is remembered.
pub fn places_are_remembered()
    ensures { PlacesAreRemembered }
{}

/// A scope runs both ways where its statements do.
pub fn scopes_run()
    ensures { ScopesRun }
{}
