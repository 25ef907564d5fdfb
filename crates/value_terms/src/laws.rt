// What is so of terms and words.
ghost use Rattle.value_terms.specs.Examples.{Texts};
ghost use Rattle.value_terms.specs.Laws.{AllIsWellFormed, FormulasMeanChecks, TermsMeanValues, ValuesAreOfKind, WordsHaveTheChecks, WorldsHaveReadings};
ghost use Rattle.value_terms.specs.Places.{OperandsAreMeant, OperandsAreWellFormed, WaysAreMeant};

/// Where variables hold values of their kinds, a typed expression whose checks are met has a value of its kind.
pub fn values_are_of_kind()
    ensures { ValuesAreOfKind }
{}

/// Where the reading stands for the world, the term of a typed expression whose checks are met means its value, and its condition is true exactly where
/// the value isn't 0.
pub fn terms_mean_values()
    ensures { TermsMeanValues }
{}

/// Behind checks that are met, the formula of a check is true exactly where the check is met, and each fact of the word is true.
pub fn formulas_mean_checks()
    ensures { FormulasMeanChecks }
{}

/// The word of an expression has its checks, in order.
pub fn words_have_the_checks()
    ensures { WordsHaveTheChecks }
{}

/// All terms and formulas that are made of a well formed reading are well formed.
pub fn all_is_well_formed()
    ensures { AllIsWellFormed }
{}

/// What is so of expressions is so of a list of operands, one by one.
pub fn operands_are_meant()
    ensures { OperandsAreMeant }
{}

/// The address of an object that is written means where its way leads, and the formulas of its checks mean these; behind them it is a cell of the kind.
pub fn ways_are_meant()
    ensures { WaysAreMeant }
{}

/// Terms of operands and of ways that are made of a well formed reading are well formed, and so are their words.
pub fn operands_are_well_formed()
    ensures { OperandsAreWellFormed }
{}

/// Terms and words of small expressions are those that were worked out by hand.
pub fn texts()
    ensures { Texts }
{}

/// Each world whose variables and cells hold values of their kinds has a well formed reading that stands for it.
pub fn worlds_have_readings()
    ensures { WorldsHaveReadings }
{}
