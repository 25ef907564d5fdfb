// What is so of the names of slots.
ghost use Rattle.memory_names.specs.Laws.{BasesFit, NamesAreShown, WrittenFit};

/// Bases of slots are well formed and of the sorts of their places, and those that stand for any value at the start of a function differ.
pub fn bases_fit()
    ensures { BasesFit }
{}

/// So are those of a function as goals are made of it.
pub fn written_fit()
    ensures { WrittenFit }
{}

/// Names are those with which functions are worked by hand.
pub fn names_are_shown()
    ensures { NamesAreShown }
{}
