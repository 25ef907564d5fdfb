// What is so of starts, each law the contract of a function that does nothing.
ghost use Rattle.memory_functions.specs.StartLaws.{EntriesStart, StartsEnter};

/// Each world in which a function is entered as it asks for has slots in which its word may start.
pub fn entries_start()
    ensures { EntriesStart }
{}

/// Slots in which the word of a function may start are those of a world in which it is entered as it asks for.
pub fn starts_enter()
    ensures { StartsEnter }
{}
