// What is so of the definition of typing, in other words than its own.
ghost use Rattle.c_spelled_back.specs.Spelled.{TypedExpressionsAreSpelled};

/// What an expression is typed as spells this expression: every operator, name, field and function in it is one that stands there.
#[tactic(auto, using(crate::proofs::Expressions::typed_expressions_are_spelled))]
pub fn typed_expressions_are_spelled()
    ensures { TypedExpressionsAreSpelled }
{}
