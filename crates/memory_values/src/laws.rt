// What is so of the terms and formulas of expressions over leaves.
ghost use Rattle.memory_values.specs.Laws.{ValuesAreClosed, ValuesAreFilled};

/// All terms and formulas that are made of an expression are closed, whatever it is.
pub fn values_are_closed()
    ensures { ValuesAreClosed }
{}

/// What is written for an expression over leaves is what it is over the slots' own terms.
pub fn values_are_filled()
    ensures { ValuesAreFilled }
{}
