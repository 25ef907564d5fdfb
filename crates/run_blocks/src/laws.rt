// Laws of blocks along runs, each the contract of a function that does nothing.
ghost use Rattle.run_blocks.specs.Laws.{EndsAreGood, OpeningsAreGood, StandingBlocks};

/// Along a segment run the blocks that were there stay.
pub fn standing_blocks()
    ensures { StandingBlocks }
{}

/// A good state stays good where a block's variables are made.
pub fn openings_are_good()
    ensures { OpeningsAreGood }
{}

/// It is good where a scope is left that was entered in a good state.
pub fn ends_are_good()
    ensures { EndsAreGood }
{}
