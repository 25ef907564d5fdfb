// What is so of typed annotations.
ghost use Rattle.acsl_well_typed.specs.Clauses.{ClausesAreWellTyped};
ghost use Rattle.acsl_well_typed.specs.Definitions.{DefinitionsAreWellTyped, TestsGrow};
ghost use Rattle.acsl_well_typed.specs.Files.{FilesAreWellTyped, RangesOfFilesAreWellTyped};
ghost use Rattle.acsl_well_typed.specs.Places.{PlacesAreWellTyped};
ghost use Rattle.acsl_well_typed.specs.Preds.{PredsAreWellTyped};
ghost use Rattle.acsl_well_typed.specs.Ranges.{RangesAreWellTyped};
ghost use Rattle.acsl_well_typed.specs.Terms.{ArgumentsAreWellTyped, TermsAreWellTyped};

/// The tree of a typed term gives what its sort says, where each name in scope has a type.
pub fn terms_are_well_typed()
    ensures { TermsAreWellTyped }
{}

/// Each of as many arguments as there are parameters gives what its parameter's type says.
pub fn arguments_are_well_typed()
    ensures { ArgumentsAreWellTyped }
{}

/// An entry of `assigns` is a region, and `\valid` and `\separated` are truths.
#[tactic(auto, using(crate::proofs::Regions::places_are_well_typed))]
pub fn places_are_well_typed()
    ensures { PlacesAreWellTyped }
{}

/// A predicate is a truth, and so is each part of it that has to be one.
#[tactic(auto, using(crate::proofs::Judging::preds_are_well_typed))]
pub fn preds_are_well_typed()
    ensures { PredsAreWellTyped }
{}

/// A predicate is a truth, and the ends of its ranges are integers, where each quantifier binds a name.
#[tactic(auto, using(crate::proofs::Judging::ranges_are_well_typed))]
pub fn ranges_are_well_typed()
    ensures { RangesAreWellTyped }
{}

/// What clauses claim are truths, what decreases is an integer, and what may be assigned are regions.
#[tactic(auto, using(crate::proofs::Lists::clauses_are_well_typed))]
pub fn clauses_are_well_typed()
    ensures { ClausesAreWellTyped }
{}

/// What is in order by some definitions is so by these and more.
#[tactic(auto, using(crate::proofs::Growth::tests_grow))]
pub fn tests_grow()
    ensures { TestsGrow }
{}

/// A definition stands for what its result says, under what its parameters say.
pub fn definitions_are_well_typed()
    ensures { DefinitionsAreWellTyped }
{}

/// Every tree among the annotations of a file is in order.
#[tactic(auto, using(crate::proofs::Notes::files_are_well_typed))]
pub fn files_are_well_typed()
    ensures { FilesAreWellTyped }
{}

/// The ends of ranges are integers too, where each quantifier of the file binds a name.
#[tactic(auto, using(crate::proofs::Notes::ranges_of_files_are_well_typed))]
pub fn ranges_of_files_are_well_typed()
    ensures { RangesOfFilesAreWellTyped }
{}
