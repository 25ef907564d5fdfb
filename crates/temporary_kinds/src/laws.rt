// What is so of temporaries.
ghost use Rattle.temporary_kinds.specs.Laws.{MentionedKindsAreTheirs, LiveAreMentioned, MentionedAreCounted};

/// What is put into a temporary, or it is used as, is of its kind.
pub fn mentioned_kinds_are_theirs()
    ensures { MentionedKindsAreTheirs }
{}

/// A temporary that is used from some point on is used in the statements there, or behind them.
pub fn live_are_mentioned()
    ensures { LiveAreMentioned }
{}

/// A temporary that is set or used is among those that are counted.
pub fn mentioned_are_counted()
    ensures { MentionedAreCounted }
{}
