// Formulas of sets that are worked out by hand.
ghost use Rattle.memory_words.specs.WordExamples.{WorkedSets};

/// A cell, and a region, in a set: the kinds of its regions, and newer blocks.
pub fn sets_worked_by_hand()
    ensures { WorkedSets }
{}
