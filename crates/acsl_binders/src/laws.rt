// What is so of the quantifiers of programs that are spelled.
ghost use Rattle.acsl_binders.specs.Spelled.{SpelledPredsBind, SpelledAssertionsBind, SpelledContractsBind, SpelledLoopsBind};
ghost use Rattle.acsl_binders.specs.Spelled.{SpelledDefinitionsBind, SpelledStatementsBind, SpelledProgramsBind};
ghost use Rattle.acsl_binders.specs.Typed.{TypedStatementsBind, TypedProgramsBind, SpelledProgramsAreWellTyped};

/// Each quantifier of a predicate as spelled binds a name.
#[tactic(auto, using(crate::proofs::Preds::spelled_preds_bind))]
pub fn spelled_preds_bind()
    ensures { SpelledPredsBind }
{}

/// Each quantifier of an assertion as spelled binds a name.
#[tactic(auto, using(crate::proofs::Annots::spelled_assertions_bind))]
pub fn spelled_assertions_bind()
    ensures { SpelledAssertionsBind }
{}

/// Each quantifier of a contract as spelled binds a name, in its behaviors too.
#[tactic(auto, using(crate::proofs::Annots::spelled_contracts_bind))]
pub fn spelled_contracts_bind()
    ensures { SpelledContractsBind }
{}

/// Each quantifier of the annotation of a loop as spelled binds a name.
#[tactic(auto, using(crate::proofs::Annots::spelled_loops_bind))]
pub fn spelled_loops_bind()
    ensures { SpelledLoopsBind }
{}

/// Each quantifier of a definition as spelled binds a name.
#[tactic(auto, using(crate::proofs::Annots::spelled_definitions_bind))]
pub fn spelled_definitions_bind()
    ensures { SpelledDefinitionsBind }
{}

/// Each quantifier in the annotations of a statement as spelled binds a name.
#[tactic(auto, using(crate::proofs::Stmts::spelled_statements_bind))]
pub fn spelled_statements_bind()
    ensures { SpelledStatementsBind }
{}

/// Each quantifier of a program as spelled binds a name.
pub fn spelled_programs_bind()
    ensures { SpelledProgramsBind }
{}

/// The typed form of a statement has the loops' annotations and the assertions of the statement, so its quantifiers bind names where those do.
#[tactic(auto, using(crate::proofs::Typed::typed_statements_bind))]
pub fn typed_statements_bind()
    ensures { TypedStatementsBind }
{}

/// The typed form of a file has the contracts, the definitions and the annotations of bodies of the file.
#[tactic(auto, using(crate::proofs::Typed::typed_programs_bind))]
pub fn typed_programs_bind()
    ensures { TypedProgramsBind }
{}

/// What typing makes of the annotations of a program that tokens spell is well typed, and the ends of ranges are integers.
pub fn spelled_programs_are_well_typed()
    ensures { SpelledProgramsAreWellTyped }
{}
