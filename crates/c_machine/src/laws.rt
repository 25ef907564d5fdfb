// What is so of constants, as laws.
ghost use Rattle.c_machine.specs.Laws.{ConstantsFollowTheRules, ValuesAreOfTheirKind};

/// The function by which constants are defined says what the rules say, one for each form of expression: which are integer constant expressions, of which
/// kind, and what each evaluates to.
pub fn constants_follow_the_rules()
    ensures { ConstantsFollowTheRules }
{}

/// The value of a constant is a number of its kind (C11 6.6p4).
pub fn values_are_of_their_kind()
    ensures { ValuesAreOfTheirKind }
{}
