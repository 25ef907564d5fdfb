// What is so of core programs of programs over plain integers.
ghost use Rattle.plain_normal.specs.Laws.{PlainProgramsAreTyped, PlainProgramsFit, TypedProgramsFit};

/// In the core program of a program over plain integers each expression is typed, with one kind for each temporary.
pub fn plain_programs_are_typed()
    ensures { PlainProgramsAreTyped }
{}

/// A core program whose expressions are typed is, with its checks, one over plain integers.
pub fn typed_programs_fit()
    ensures { TypedProgramsFit }
{}

/// The core program, with its checks, of a program over plain integers is one over plain integers.
pub fn plain_programs_fit()
    ensures { PlainProgramsFit }
{}
