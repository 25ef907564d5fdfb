// Laws of calls.
ghost use Rattle.qed_calls.specs.Laws.{CallsAreFixed, CallsKeepMeaning};

/// In a regular setting the rule keeps the meaning.
pub fn calls_keep_meaning()
    ensures { CallsKeepMeaning }
{}

/// In a regular setting a function has the value of its base case up to the cut, and above it that of its step.
pub fn calls_are_fixed()
    ensures { CallsAreFixed }
{}
