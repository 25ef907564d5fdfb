// What follows from the definitions.
ghost use Rattle.c_runs.specs.TruthAllowed.{ChangesAdd};
ghost use Rattle.c_runs.specs.TruthLaws.{SameMeaning};
ghost use Rattle.c_runs.specs.Ranges.{RangesSay};
ghost use Rattle.c_runs.specs.Recursion.{RecursionUnfolds};

/// An annotation that is expanded means what it means with its calls.
#[tactic(auto, using(crate::proofs::Definitions::same_meaning))]
pub fn same_meaning()
    ensures { SameMeaning }
{}

/// Nothing need change, a larger set allows more, and what is allowed twice in turn is allowed at once.
pub fn changes_add()
    ensures { ChangesAdd }
{}

/// Quantifiers over the numbers between two ends say what they say of each number, or of one.
pub fn ranges_say()
    ensures { RangesSay }
{}

/// A logic function that calls itself has the value of its body, in which its calls of itself have their own values.
pub fn recursion_unfolds()
    ensures { RecursionUnfolds }
{}
