// What is so of calls.
ghost use Rattle.call_words.specs.Examples.{ExamplesHold};
ghost use Rattle.call_words.specs.Laws.{CallsAreGood, CallsRun};

/// All that stands in the word of a call is good.
pub fn calls_are_good()
    ensures { CallsAreGood }
{}

/// The segment runs of a call are the runs of its word.
pub fn calls_run()
    ensures { CallsRun }
{}

/// Words of small calls have in them what was worked out by hand.
pub fn examples_hold()
    ensures { ExamplesHold }
{}
