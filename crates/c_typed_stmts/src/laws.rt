// What is so of the definition of typing, in other words than its own.
ghost use Rattle.c_typed_stmts.specs.Law.{TypedStatementsAreInOrder};

/// What a statement is typed as is a statement of that form, by the rules of its parts: each expression in it has the types that its parts give
/// it, spells the one that was typed and has one result, and what a declaration declares is in scope behind it in its block.
#[tactic(auto, using(crate::proofs::Statements::typed_statements_are_in_order))]
pub fn typed_statements_are_in_order()
    ensures { TypedStatementsAreInOrder }
{}
