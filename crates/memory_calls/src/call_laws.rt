// What is so of the words of calls with memory.
ghost use Rattle.memory_calls.specs.CallLaws.{CallsAreGood, CallsRun};

/// All that stands in the word of a call is good.
pub fn calls_are_good()
    ensures { CallsAreGood }
{}

/// The segment runs of a call are the runs of its word.
pub fn calls_run()
    ensures { CallsRun }
{}
