// Laws of changes, each the contract of a function that does nothing.
ghost use Rattle.typed_memories.specs.ChangeLaws.{
  AllocationsMakeBlocks,
  FramesAreChanges,
  GrowingEndsBlocks,
  GrownTablesHaveTheSameBlocks,
  KindsLeftAloneAreRead,
  MadeBlocksHoldContents,
  NewerBlocksLackKinds,
  ParametersHoldArguments,
  RegionsAreSets,
  StandingBlocksStay,
};

/// Frames are changes in a set, and the other way round.
pub fn frames_are_changes()
    ensures { FramesAreChanges }
{}

/// A table that is grown has the same live blocks, and the other way round.
pub fn grown_tables_have_the_same_blocks()
    ensures { GrownTablesHaveTheSameBlocks }
{}

/// Regions with the cells of an annotation's set let change what the annotation does.
pub fn regions_are_sets()
    ensures { RegionsAreSets }
{}

/// A layout that is allocated, with frames, is a block that is made, and the other way round.
pub fn allocations_make_blocks()
    ensures { AllocationsMakeBlocks }
{}

/// A run makes a block by its contents, and each block that holds values of its kinds is made so.
pub fn made_blocks_hold_contents()
    ensures { MadeBlocksHoldContents }
{}

/// A table that is grown from an earlier one, with frames, is that newer blocks end, and the other way round.
pub fn growing_ends_blocks()
    ensures { GrowingEndsBlocks }
{}

/// Blocks of before stay through all that is made, changed and ended since.
pub fn standing_blocks_stay()
    ensures { StandingBlocksStay }
{}

/// A parameter with a block is a block that is made, whose cell holds the argument.
pub fn parameters_hold_arguments()
    ensures { ParametersHoldArguments }
{}

/// Memories of kinds that a change leaves alone read the state behind it.
pub fn kinds_left_alone_are_read()
    ensures { KindsLeftAloneAreRead }
{}

/// Newer blocks lack a kind as long as no block with it is made.
pub fn newer_blocks_lack_kinds()
    ensures { NewerBlocksLackKinds }
{}
