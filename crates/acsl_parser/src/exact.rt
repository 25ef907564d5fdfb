// What is read is spelled so, and what is spelled is read, where the tokens behind it may follow.
ghost use Rattle.acsl_parser.specs.Exactness.{AssertIsExact, ContractIsExact, LogicIsExact, LogicsAreExact, LoopIsExact};

/// `loop_at` reads exactly what is spelled.
pub fn loop_is_exact()
    ensures { LoopIsExact }
{}

/// `assert_at` reads exactly what is spelled.
pub fn assert_is_exact()
    ensures { AssertIsExact }
{}

/// `contract_at` reads exactly what is spelled.
pub fn contract_is_exact()
    ensures { ContractIsExact }
{}

/// `logic_at` reads exactly what is spelled.
pub fn logic_is_exact()
    ensures { LogicIsExact }
{}

/// `logics_at` reads exactly what is spelled.
pub fn logics_are_exact()
    ensures { LogicsAreExact }
{}
