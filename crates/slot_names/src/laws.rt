// What is so of base names.
ghost use Rattle.slot_names.specs.Laws.{BasesFit};

/// Base names of slots are well formed, and own names at the start of a function differ.
pub fn bases_fit()
    ensures { BasesFit }
{}
