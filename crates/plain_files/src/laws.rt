// What is so of the programs of plain texts.
ghost use Rattle.plain_files.specs.Blocks.{SpelledProgramsNest};
ghost use Rattle.plain_files.specs.Laws.{BodiesOfTextsAreTyped, BodiesOfTextsJump, BodiesOfTextsStand, PlainTextsArePlain, PlainTextsFit};

/// In a program that tokens spell declarations stand in blocks, and before the loop of a `for`, and jumps inside of what they leave.
pub fn spelled_programs_nest()
    ensures { SpelledProgramsNest }
{}

/// Each body of a plain text is typed in declarations that are in the program, and each function that is declared has a body.
pub fn bodies_of_texts_are_typed()
    ensures { BodiesOfTextsAreTyped }
{}

/// In the program of a plain text each body declares and uses variables in their scopes.
pub fn bodies_of_texts_stand()
    ensures { BodiesOfTextsStand }
{}

/// In each body of a plain text `break` and `continue` stand inside of what they leave.
pub fn bodies_of_texts_jump()
    ensures { BodiesOfTextsJump }
{}

/// The program of a plain text is one over plain integers.
pub fn plain_texts_are_plain()
    ensures { PlainTextsArePlain }
{}

/// The core program, with its checks, of a plain text is one over plain integers.
pub fn plain_texts_fit()
    ensures { PlainTextsFit }
{}
