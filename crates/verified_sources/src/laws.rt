// What the tests say.
ghost use Rattle.verified_sources.specs.Laws.{TestsAreOfSources};

/// A source is verified exactly where what is made of it passes the tests.
pub fn tests_are_of_sources()
    ensures { TestsAreOfSources }
{}
