// Laws of memories by kind, each the contract of a function that does nothing.
ghost use Rattle.typed_memories.specs.Laws.{
  CleanHasMemories,
  DecodedStatesAreShaped,
  FormedDecodeWell,
  FormedIsCleanAndInRange,
  FormedIsOfContents,
  FramesSay,
  LoadsAgree,
  MapsAre,
  StatesHaveMemories,
  StoresAgree,
  WellFormedSays,
  WellFormedStatesAreFormed,
};

/// A store changes one cell, and memories are the same where they hold the same at each address.
pub fn maps_say()
    ensures { MapsAre }
{}

/// That memories are well formed says of each address that they are formed there.
pub fn well_formed_says()
    ensures { WellFormedSays }
{}

/// A frame says of each address that it holds what it held, or lies in a region.
pub fn frames_say()
    ensures { FramesSay }
{}

/// Formed is clean, with values in the ranges of their kinds.
pub fn formed_is_clean_and_in_range()
    ensures { FormedIsCleanAndInRange }
{}

/// Clean memories decode to a state of the machine's shape, and read it.
pub fn decoded_states_are_shaped()
    ensures { DecodedStatesAreShaped }
{}

/// Each state has memories that read it, and is what they decode to.
pub fn states_have_memories()
    ensures { StatesHaveMemories }
{}

/// What is clean is held by some memory.
pub fn clean_has_memories()
    ensures { CleanHasMemories }
{}

/// A load is a read of the state, and the other way round.
pub fn loads_agree()
    ensures { LoadsAgree }
{}

/// A store is a write of the state, and the other way round.
pub fn stores_agree()
    ensures { StoresAgree }
{}

/// Memories of well formed states are formed, and the other way round.
pub fn well_formed_states_are_formed()
    ensures { WellFormedStatesAreFormed }
{}

/// So it is for each kind by itself.
pub fn formed_is_of_contents()
    ensures { FormedIsOfContents }
{}

/// Formed memories decode to a well formed state, if the variables of the file are in order.
pub fn formed_decode_well()
    ensures { FormedDecodeWell }
{}
