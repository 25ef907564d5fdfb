// What is so of annotations that were typed.
ghost use Rattle.acsl_same_meaning.specs.Definitions.{DefinitionsAreWellFormed};
ghost use Rattle.acsl_same_meaning.specs.Laws.{FilesAreWellFormed, FilesMeanTheSame};
ghost use Rattle.acsl_same_meaning.specs.Preds.{PredsAreWellFormed};
ghost use Rattle.acsl_same_meaning.specs.Programs.{
  ProgramsAreSpelled,
  ProgramsMeanTheSame,
  TypedFilesAreSpelled,
};
ghost use Rattle.acsl_same_meaning.specs.Trees.{OperatorsKeep, TermsAreWellFormed};

/// What operators make of operands that are well formed, is well formed.
pub fn operators_keep()
    ensures { OperatorsKeep }
{}

/// What typing makes of a term is well formed, and binds no name.
pub fn terms_are_well_formed()
    ensures { TermsAreWellFormed }
{}

/// What typing makes of a predicate is well formed, the ends of its ranges among it.
pub fn preds_are_well_formed()
    ensures { PredsAreWellFormed }
{}

/// What a definition stands for is well formed, and has the form of a recursion where it calls itself.
pub fn definitions_are_well_formed()
    ensures { DefinitionsAreWellFormed }
{}

/// The definitions of a file, and every tree among its annotations, are well formed.
pub fn files_are_well_formed()
    ensures { FilesAreWellFormed }
{}

/// Each annotation of a file that is expanded means what it means with its calls.
pub fn files_mean_the_same()
    ensures { FilesMeanTheSame }
{}

/// Each quantifier that tokens spell binds a name, and a definition stands for a term exactly where it has a result.
pub fn programs_are_spelled()
    ensures { ProgramsAreSpelled }
{}

/// Typing a file leaves its annotations as they are spelled.
pub fn typed_files_are_spelled()
    ensures { TypedFilesAreSpelled }
{}

/// Each annotation of a program that is expanded means what it means with its calls.
pub fn programs_mean_the_same()
    ensures { ProgramsMeanTheSame }
{}
