// What is so of marks, as laws.
ghost use Rattle.c_taken.specs.Laws.{FlagsAreFreeNames, MarksStayInScope, OuterNamesAreFree};

/// Of the file scope, exactly the names that are free in the file are marked.
pub fn outer_names_are_free()
    ensures { OuterNamesAreFree }
{}

/// The flag of a local is set exactly where its name is free in its initialiser and in what follows in its block.
pub fn flags_are_free_names()
    ensures { FlagsAreFreeNames }
{}

/// A local that isn't in scope keeps its flag.
pub fn marks_stay_in_scope()
    ensures { MarksStayInScope }
{}
