// What is so of the programs of files with blocks and pointers.
ghost use Rattle.kinded_programs.specs.Values.{WellTypedAreKinded};
ghost use Rattle.kinded_programs.specs.Standing.{TypedStatementsAreKinded};
ghost use Rattle.kinded_programs.specs.Files.{KindedFilesAreKinded, KindedFilesFit};

/// Well-typed values that stand have the kinds that are asked of a program with blocks and pointers.
pub fn well_typed_are_kinded()
    ensures { WellTypedAreKinded }
{}

/// In the program, typed statements have the kinds of one with blocks and pointers, where their values stand and variables keep their scopes.
pub fn typed_statements_are_kinded()
    ensures { TypedStatementsAreKinded }
{}

/// The program of a file whose bodies are typed and stand has the kinds that are asked of blocks and pointers.
pub fn kinded_files_are_kinded()
    ensures { KindedFilesAreKinded }
{}

/// The core program, with its checks, of such a file fits what the laws on runs ask.
pub fn kinded_files_fit()
    ensures { KindedFilesFit }
{}
