// What is so of kinds and layouts, as laws.
ghost use Rattle.c_kinds.specs.Laws.{CommonIsCommon, ConversionsKeep, PromotionKeeps, StructsAreInOrder};
ghost use Rattle.c_kinds.specs.NumberLaws.{OperatorsActOnBits, QuotientsDivide, ResultsAreExact, ResultsAreOfKind, ShiftsRoundDown};

/// A conversion gives a number of the kind, the same where the kind has it, and else one that is the same modulo 2^bits.
pub fn conversions_keep()
    ensures { ConversionsKeep }
{}

/// A kind is promoted to one that holds all its numbers.
#[tactic(auto, using(crate::proofs::Ranking::promotion_keeps))]
pub fn promotion_keeps()
    ensures { PromotionKeeps }
{}

/// The common kind doesn't depend on the order of the operands, and holds the numbers of both where it is signed.
#[tactic(auto, using(crate::proofs::Ranking::common_is_common))]
pub fn common_is_common()
    ensures { CommonIsCommon }
{}

/// The cells of a struct are those of its fields, each at its place.
#[tactic(auto, using(crate::proofs::Laying::structs_are_in_order))]
pub fn structs_are_in_order()
    ensures { StructsAreInOrder }
{}

/// Every result of an operator is a number of the kind.
pub fn results_are_of_kind()
    ensures { ResultsAreOfKind }
{}

/// A sum, a difference, a product, an opposite or a shift to the left is the exact number where the kind holds it; a signed kind gives no other, and an
/// unsigned one always gives the one that is the same modulo 2^bits.
pub fn results_are_exact()
    ensures { ResultsAreExact }
{}

/// The quotient times the divisor, and what remains, is the dividend.
pub fn quotients_divide()
    ensures { QuotientsDivide }
{}

/// A shift to the right divides by a power of two and rounds down.
pub fn shifts_round_down()
    ensures { ShiftsRoundDown }
{}

/// A number is the one of its kind with its bits, and `&`, `^`, `|` and `~` act on each bit by itself.
pub fn operators_act_on_bits()
    ensures { OperatorsActOnBits }
{}
