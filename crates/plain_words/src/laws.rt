// What is so of statements of plain programs.
ghost use Rattle.plain_words.specs.Laws.{PlainProgramsStand};

/// The statements of the core program, with its checks, of a program over plain integers have words.
pub fn plain_programs_stand()
    ensures { PlainProgramsStand }
{}
