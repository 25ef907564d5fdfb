// What is so of types, in other words than those of the definitions.
ghost use Rattle.typed_prog.specs.Types.{TypesAreCompared};

/// Two types are told to be the same exactly where they are equal.
#[tactic(auto, using(crate::proofs::Same::types_are_compared))]
pub fn types_are_compared()
    ensures { TypesAreCompared }
{}
