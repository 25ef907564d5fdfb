// What is so of the programs of plain files.
ghost use Rattle.plain_programs.specs.Laws.{GlobalsAreIntegers, VariablesAreIntegers, SequencedAreSingle};
ghost use Rattle.plain_programs.specs.Values.{WellTypedArePlain};
ghost use Rattle.plain_programs.specs.Files.{PlainFilesArePlain, PlainFilesFit};
ghost use Rattle.plain_programs.specs.Standing.{TypedStatementsArePlain};

/// The variables of a plain file are integers that no pointer leads to.
pub fn globals_are_integers()
    ensures { GlobalsAreIntegers }
{}

/// The variables of each of its functions are integers that no pointer leads to.
pub fn variables_are_integers()
    ensures { VariablesAreIntegers }
{}

/// A full expression that has one result in every order leaves one value of what comes first in it.
pub fn sequenced_are_single()
    ensures { SequencedAreSingle }
{}

/// Well-typed values without pointers are those of a program over plain integers.
pub fn well_typed_are_plain()
    ensures { WellTypedArePlain }
{}

/// In the program, typed statements without pointers are statements over plain integers.
pub fn typed_statements_are_plain()
    ensures { TypedStatementsArePlain }
{}

/// The program of a plain file whose bodies are typed and keep their scopes is one over plain integers.
pub fn plain_files_are_plain()
    ensures { PlainFilesArePlain }
{}

/// The core program, with its checks, of a plain file whose bodies are typed and keep their scopes is one over plain integers.
pub fn plain_files_fit()
    ensures { PlainFilesFit }
{}
