// Laws of readings, each the contract of a function that does nothing.
ghost use Rattle.memory_words.specs.ReadingExamples.{WorkedReadings};
ghost use Rattle.memory_words.specs.ReadingLaws.{
  AnnotationsRead,
  BodiesSee,
  ContractsSee,
  ExpressionsRead,
  LevelsAreStates,
};

/// Where slots stand for a world, the reading of expressions stands for it.
pub fn expressions_read()
    ensures { ExpressionsRead }
{}

/// And what a body's annotations see of the slots is the world's state.
pub fn bodies_see()
    ensures { BodiesSee }
{}

/// A contract sees the file of slots, and arguments in the places of parameters.
pub fn contracts_see()
    ensures { ContractsSee }
{}

/// What is seen of a level is what is seen of its state by itself.
pub fn levels_are_states()
    ensures { LevelsAreStates }
{}

/// Readings of bodies, entries and returns stand for what annotations see there.
pub fn annotations_read()
    ensures { AnnotationsRead }
{}

/// The readings of a function, worked out by hand.
pub fn worked_readings()
    ensures { WorkedReadings }
{}
