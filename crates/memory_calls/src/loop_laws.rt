// What is so of the words of loops with memory.
ghost use Rattle.memory_calls.specs.LoopLaws.{LoopsAreGood, LoopsRun};

/// All that stands in the word of a loop is good, where that of its pass is.
pub fn loops_are_good()
    ensures { LoopsAreGood }
{}

/// The segment runs of a loop are the runs of its word, where those of its pass are.
pub fn loops_run()
    ensures { LoopsRun }
{}
