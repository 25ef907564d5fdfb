// What is so of the cells of programs.
ghost use Rattle.program_cells.specs.Laws.{ProgramsKnowTheirCells};

/// All that a program speaks of is among its cells.
pub fn programs_know_their_cells()
    ensures { ProgramsKnowTheirCells }
{}
