// What is so of scopes and types, as laws.
ghost use Rattle.c_scopes.specs.Laws.{ExtentsAreWithin, FilesDeclare, ParametersPoint, PointersAreSpelled, ScopesNest, StructsAreWithin, TypeNamesMean, VoidsStandAlone};

/// A declaration in the file gives a new name its symbol and its number, and leaves all others as they were.
#[tactic(auto, using(crate::proofs::Declaring::files_declare))]
pub fn files_declare()
    ensures { FilesDeclare }
{}

/// A local hides what its name was, until its block is left.
pub fn scopes_nest()
    ensures { ScopesNest }
{}

/// Typedef names and tags mean what they were declared as.
#[tactic(auto, using(crate::proofs::Types::type_names_mean))]
pub fn type_names_mean()
    ensures { TypeNamesMean }
{}

/// Every pointer type is what its own spelling means.
#[tactic(auto, using(crate::proofs::Types::pointers_are_spelled))]
pub fn pointers_are_spelled()
    ensures { PointersAreSpelled }
{}

/// No pointer leads to `void`, and no array has elements of it.
#[tactic(auto, using(crate::proofs::Types::voids_stand_alone))]
pub fn voids_stand_alone()
    ensures { VoidsStandAlone }
{}

/// A parameter is the same pointer, spelled as an array or by a typedef name of it.
#[tactic(auto, using(crate::proofs::Types::parameters_point))]
pub fn parameters_point()
    ensures { ParametersPoint }
{}

/// The layout of an object, exactly where an object can have the type within the limit.
pub fn extents_are_within()
    ensures { ExtentsAreWithin }
{}

/// A struct is within the limit exactly where its cells are.
pub fn structs_are_within()
    ensures { StructsAreWithin }
{}
