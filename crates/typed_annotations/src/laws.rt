// What is so of typed annotations of functions with memory.
ghost use Rattle.typed_annotations.specs.Behaviors.{CalleesFit, ContractsFit, ForcesFit, LoopsFit};
ghost use Rattle.typed_annotations.specs.Laws.{AnnotationsFit, CalleesRead, FunctionsRead, RegionsFit};

/// Claims and measures have closed formulas and terms, which mean them.
pub fn annotations_fit()
    ensures { AnnotationsFit }
{}

/// Regions have cells with closed terms, or name variables.
pub fn regions_fit()
    ensures { RegionsFit }
{}

/// The readings of a function are over leaves, and give what its variables tell.
pub fn functions_read()
    ensures { FunctionsRead }
{}

/// So are those of a function that is called.
pub fn callees_read()
    ensures { CalleesRead }
{}

/// A function's own contract is what its word asks for.
pub fn contracts_fit()
    ensures { ContractsFit }
{}

/// So are the annotations of a loop.
pub fn loops_fit()
    ensures { LoopsFit }
{}

/// So is the set in force.
pub fn forces_fit()
    ensures { ForcesFit }
{}

/// A function's own contract is what its callers ask for too.
pub fn callees_fit()
    ensures { CalleesFit }
{}
