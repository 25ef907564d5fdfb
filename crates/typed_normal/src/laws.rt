// What is so of core programs of spelled programs with blocks and pointers.
ghost use Rattle.typed_normal.specs.Laws.{KindedProgramsAreTyped, KindedProgramsFit, TemporariesAreSetFirst, TypedProgramsFit};

/// In the core program of a program whose expressions have the kinds that are wanted each expression is typed, with one kind for each temporary.
pub fn kinded_programs_are_typed()
    ensures { KindedProgramsAreTyped }
{}

/// In a core program temporaries are set before they are used.
pub fn temporaries_are_set_first()
    ensures { TemporariesAreSetFirst }
{}

/// A core program whose expressions are typed and whose temporaries are set first keeps, with its checks, to the kinds.
pub fn typed_programs_fit()
    ensures { TypedProgramsFit }
{}

/// The core program, with its checks, of a program whose expressions have the kinds that are wanted keeps to the kinds.
pub fn kinded_programs_fit()
    ensures { KindedProgramsFit }
{}
