// What is so of walks of verified sources.
ghost use Rattle.source_goals.specs.Laws.{WalksAreOfSources};

/// The goals that the walk of each body of a verified source passes on are those of the source.
pub fn walks_are_of_sources()
    ensures { WalksAreOfSources }
{}
