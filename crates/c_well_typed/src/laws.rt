// What is so of typed expressions.
ghost use Rattle.c_well_typed.specs.Scalars.{ValuesAreScalars};
ghost use Rattle.c_well_typed.specs.WellTyped.{TypedExpressionsFit};

/// Each node of a typed expression has the type that its parts give it, and each path in it reaches an object of the type that it is
/// taken to have.
#[tactic(auto, using(crate::proofs::WellTyped::typed_expressions_fit))]
pub fn typed_expressions_fit()
    ensures { TypedExpressionsFit }
{}

/// Each value that fits is an integer or a pointer, or there is none, where what is declared is in order.
#[tactic(auto, using(crate::proofs::Scalars::values_are_scalars))]
pub fn values_are_scalars()
    ensures { ValuesAreScalars }
{}
