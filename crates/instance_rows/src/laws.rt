// Laws of the rows and of a round, each the contract of a function that does nothing.
ghost use Rattle.instance_rows.specs.Laws.{UnequalIsOrdered, LoadsOfStoresAreValid, FramesKeepLoads, LoadsAreInRange, WritesAreReads, ReadsHavePlaces};
ghost use Rattle.instance_rows.specs.Laws.{MadeBlocksAnswer, LayoutsAnswer, ConversionsWrap, QuotientsAreBounded, OperatorsAreBounded, ChoicesAreArms};
ghost use Rattle.instance_rows.specs.Laws.{OffsetsAreOrdered, CallsAreUnfolded, RoundFollows, RoundLeadsToOne};

/// Of two unequal integers one is the smaller.
pub fn unequal_is_ordered()
    ensures { UnequalIsOrdered }
{}

/// A load over a store is the value at its address, and elsewhere what lies below.
pub fn loads_of_stores_are_valid()
    ensures { LoadsOfStoresAreValid }
{}

/// Where a frame is true, a load of the one memory is in a region or agrees with that of the other.
pub fn frames_keep_loads()
    ensures { FramesKeepLoads }
{}

/// Where a memory is well formed, a load of it is in the range of its kind.
pub fn loads_are_in_range()
    ensures { LoadsAreInRange }
{}

/// A cell that may be written may be read.
pub fn writes_are_reads()
    ensures { WritesAreReads }
{}

/// A cell that may be read lies in a live block.
pub fn reads_have_places()
    ensures { ReadsHavePlaces }
{}

/// A block that was made last answers by its layout, each other one as before.
pub fn made_blocks_answer()
    ensures { MadeBlocksAnswer }
{}

/// A block with a layout answers by it.
pub fn layouts_answer()
    ensures { LayoutsAnswer }
{}

/// A conversion is in the range of its kind, and what it was but for a turn where it was no further away.
pub fn conversions_wrap()
    ensures { ConversionsWrap }
{}

/// The bounds of a quotient by a number from 2 on.
pub fn quotients_are_bounded()
    ensures { QuotientsAreBounded }
{}

/// What a remainder is, and the bounds of a shift to the right by a number and of common bits.
pub fn operators_are_bounded()
    ensures { OperatorsAreBounded }
{}

/// A choice is one of its arms.
pub fn choices_are_arms()
    ensures { ChoicesAreArms }
{}

/// Of two offsets one is the smaller, or they are equal.
pub fn offsets_are_ordered()
    ensures { OffsetsAreOrdered }
{}

/// A call is its base case up to the cut, and its step above it.
pub fn calls_are_unfolded()
    ensures { CallsAreUnfolded }
{}

/// What a round adds follows from the branch, in the world of a regular setting.
pub fn round_follows()
    ensures { RoundFollows }
{}

/// A round adds one list of formulas.
pub fn round_leads_to_one()
    ensures { RoundLeadsToOne }
{}
