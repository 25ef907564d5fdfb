// What is so of typed annotations that are expanded.
ghost use Rattle.expanded_types.specs.Laws.{ExpansionKeepsTypes};

/// An annotation that is expanded gives what it gives with its calls.
pub fn expansion_keeps_types()
    ensures { ExpansionKeepsTypes }
{}
