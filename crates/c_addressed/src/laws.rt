// What is so of addresses in typed expressions.
ghost use Rattle.c_addressed.specs.Addressed.{AddressesAreNamed};

/// Each whole variable whose address a typed expression takes is named directly behind `&` in its text.
#[tactic(auto, using(crate::proofs::Expressions::addresses_are_named))]
pub fn addresses_are_named()
    ensures { AddressesAreNamed }
{}
