// Quantifiers, put together of owned trees. What takes the boxes is generic, so that what a want of memory drops is proved once.
ghost use Rattle.std.specs.Prelude.{◌≡◌, IfOk};
ghost use Rattle.qed_terms.specs.Tree.{node, three};
ghost use Rattle.qed_terms.specs.View.{formula_tree, term_tree};
ghost use Rattle.qed_substitution.specs.Substitution.{quantifier};

use qed_terms::{Formula, Term};
use std::alloc::Global;
use wp_base::{Boxed, NoMemory, Str, box_three};

// A copy of a name, and three in boxes of their own.
fn box_named<A: Drop, B: Drop, C: Drop>(
    alloc: Global,
    name: &Str,
    first: A,
    second: B,
    third: C,
) -> Result<(Str, Boxed<A>, Boxed<B>, Boxed<C>), NoMemory>
    ensures { IfOk result (λ made. (made.0 ≡ name.now) × (made.1 ≡ first) × (made.2 ≡ second) × (made.3 ≡ third)) }
{
    let name = name.copy(alloc)?;
    let (first, second, third) = box_three(alloc, first, second, third)?;
    Ok((name, first, second, third))
}

/// `forall`, or else `exists`.
#[tactic(auto, using(qed_terms::proofs::Equations::tree_laws))]
pub fn quantify(
    alloc: Global,
    all: bool,
    name: &Str,
    low: Term,
    high: Term,
    body: Formula,
) -> Result<Formula, NoMemory>
    ensures { IfOk result (λ formula. formula_tree formula ≡ node (quantifier all name.now) (three (term_tree low) (term_tree high) (formula_tree body))) }
{
    let (name, low, high, body) = box_named(alloc, name, low, high, body)?;
    if all {
        Ok(Formula::Forall(name, low, high, body))
    } else {
        Ok(Formula::Exists(name, low, high, body))
    }
}
