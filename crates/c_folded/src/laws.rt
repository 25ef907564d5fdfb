// What is so of the constants that typing computes.
ghost use Rattle.c_folded.specs.Folded.{ConstantsAreFolded};
ghost use Rattle.c_folded.specs.InScope.{ConstantsInScopeAreFolded, OnlyConstantsCount};

/// An integer constant expression that has a type is typed as one, of its kind and with its value; and that is what the typed expression
/// evaluates to.
#[tactic(auto, using(crate::proofs::Expressions::constants_are_folded))]
pub fn constants_are_folded()
    ensures { ConstantsAreFolded }
{}

/// The same of an expression with names, once enumerators are taken for numbers and types for what they stand for.
#[tactic(auto, using(crate::proofs::InScope::constants_in_scope_are_folded))]
pub fn constants_in_scope_are_folded()
    ensures { ConstantsInScopeAreFolded }
{}

/// What typing lets count as an integer constant expression is one by the rules, of the kind and with the value that it has by them.
#[tactic(auto, using(crate::proofs::Only::only_constants_count))]
pub fn only_constants_count()
    ensures { OnlyConstantsCount }
{}
