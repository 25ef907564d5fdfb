// Laws of stores to cells, each the contract of a function that does nothing.
ghost use Rattle.memory_statements.specs.StoreLaws.{
  BlocksReceive,
  CellsAreStored,
  CellsAreWritten,
  CellsReceive,
  LevelsRead,
  StartsOfBlocksRun,
  StoresToCellsRun,
  TermsAreClosed,
  WaysAreAsked,
};
ghost use Rattle.memory_statements.specs.Regions.{CellsInside, RegionsInside};

/// Where the slots of a level stand for a world, the reading of that level does.
pub fn levels_read()
    ensures { LevelsRead }
{}

/// Terms of expressions bind no name.
pub fn terms_are_closed()
    ensures { TermsAreClosed }
{}

/// Slots stand for the world in which the cell holds the value.
pub fn cells_are_stored()
    ensures { CellsAreStored }
{}

/// A cell is written where the set in force lets it.
pub fn cells_are_written()
    ensures { CellsAreWritten }
{}

/// The checks of operands and of a way are asked in turn.
pub fn ways_are_asked()
    ensures { WaysAreAsked }
{}

/// A cell that a way leads to gets the value of any term.
pub fn cells_receive()
    ensures { CellsReceive }
{}

/// And so does a variable that has a block.
pub fn blocks_receive()
    ensures { BlocksReceive }
{}

/// An assignment that leads to a cell and its word run both ways.
pub fn stores_to_cells_run()
    ensures { StoresToCellsRun }
{}

/// So does the first value of a variable that has a block.
pub fn starts_of_blocks_run()
    ensures { StartsOfBlocksRun }
{}

/// Whether a cell is in a set.
pub fn cells_inside()
    ensures { CellsInside }
{}

/// Whether regions lie in a set.
pub fn regions_inside()
    ensures { RegionsInside }
{}
