// Laws of memories that are one map, each the contract of a function that does nothing.
ghost use Rattle.same_memories.specs.Examples.{WorkedMemories};
ghost use Rattle.same_memories.specs.Laws.{
  CanonicalHoldsTheSame,
  CanonicalIsCanonical,
  OneListForEachMap,
  ParametersAreAlike,
  SameIsOneList,
  SettingsRespect,
  TermsDontTell,
};

/// In order a memory holds what it held.
pub fn canonical_holds_the_same()
    ensures { CanonicalHoldsTheSame }
{}

/// Lists that are one map are one list in order.
pub fn one_list_for_each_map()
    ensures { OneListForEachMap }
{}

/// What is in order stays as it is.
pub fn canonical_is_canonical()
    ensures { CanonicalIsCanonical }
{}

/// Memories are the same exactly where they are one list in order.
pub fn same_is_one_list()
    ensures { SameIsOneList }
{}

/// Trees don't tell memories apart that are one map.
pub fn terms_dont_tell()
    ensures { TermsDontTell }
{}

/// Parameters with alike arguments are alike.
pub fn parameters_are_alike()
    ensures { ParametersAreAlike }
{}

/// Nor do the logic functions of a setting.
pub fn settings_respect()
    ensures { SettingsRespect }
{}

/// Memories worked by hand.
pub fn memories_worked_by_hand()
    ensures { WorkedMemories }
{}
