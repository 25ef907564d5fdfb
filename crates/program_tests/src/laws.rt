// What passes the tests is what the laws on goals ask for.
ghost use Rattle.program_tests.specs.Examples.{ExamplesPass};
ghost use Rattle.program_tests.specs.Laws.{
  PassingAnnotationsAre,
  PassingBodiesAreAnnotated,
  PassingFunctionsAreReady,
  PassingSetsFit,
  ProgramsKnowCells,
  TestedProgramsFit,
};

/// Annotations that pass are what is asked of them.
pub fn passing_annotations_are()
    ensures { PassingAnnotationsAre }
{}

/// So are those of a body, statement by statement, and its exits and results.
pub fn passing_bodies_are_annotated()
    ensures { PassingBodiesAreAnnotated }
{}

/// Functions that pass, written with the temporaries that are told of them, are ready.
pub fn passing_functions_are_ready()
    ensures { PassingFunctionsAreReady }
{}

/// Sets of regions that pass have no gaps, and let no variable change that isn't in scope.
pub fn passing_sets_fit()
    ensures { PassingSetsFit }
{}

/// A program speaks of the cells that are told of its typed file.
pub fn programs_know_cells()
    ensures { ProgramsKnowCells }
{}

/// A program that is tested so is what the laws on goals ask for.
pub fn tested_programs_fit()
    ensures { TestedProgramsFit }
{}

/// A small function passes, and what its tests refuse is refused.
pub fn examples_pass()
    ensures { ExamplesPass }
{}
