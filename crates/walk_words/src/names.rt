// Fresh names for values.
ghost use Rattle.std.specs.Prelude.{◌≡◌, ◌++◌, ◌∷◌, [], map, IfOk, OnOk};
ghost use Rattle.qed_terms.specs.Fresh.{use_one, used_in};
ghost use Rattle.qed_terms.specs.Tree.{equal};
ghost use Rattle.qed_terms.specs.View.{formula_tree, term_tree};
ghost use Rattle.walk_steps.specs.World as spec;

use qed_terms::{FormOp, Formula, Fresh, Term};
use std::alloc::Global;
use wp_base::{NoMemory, Str};

/// The base name of values that are named for their size.
const LARGE: &[u8] = b"v";

/// A value of more nodes is named.
const MOST_NODES: usize = 40;

/// The next fresh name of a base.
#[tactic(auto, using(crate::proofs::GivenNames::newly_named))]
pub fn new_name(alloc: Global, fresh: &mut Fresh, base: &Str) -> Result<Term, NoMemory>
    ensures name { IfOk result (λ term. term_tree term ≡ spec.new_name (used_in fresh.old) base.now) }
    ensures used { OnOk result (used_in fresh.new ≡ use_one (used_in fresh.old) base.now) }
{
    let name = fresh.name(base)?;
    let term = Term::name(alloc, &name)?;
    Ok(term)
}

// The next fresh name of a large value.
fn large_name(alloc: Global, fresh: &mut Fresh) -> Result<Term, NoMemory>
    ensures name { IfOk result (λ term. term_tree term ≡ spec.new_name (used_in fresh.old) spec.large_base) }
    ensures used { OnOk result (used_in fresh.new ≡ use_one (used_in fresh.old) spec.large_base) }
{
    let base = Str::from_bytes(alloc, LARGE)?;
    new_name(alloc, fresh, &base)
}

fn is_large(term: &Term) -> bool
    ensures { result ≡ spec.is_large (term_tree term.now) }
{
    term.is_larger_than(MOST_NODES)
}

/// It is known that the name is the value.
#[tactic(auto, using(crate::proofs::Pushing::map_push))]
pub fn link(
    alloc: Global,
    name: &Term,
    value: Term,
    known: &mut Vec<Formula>,
) -> Result<(), NoMemory>
    ensures { OnOk result (map formula_tree known.new.items ≡ map formula_tree known.old.items ++ equal (term_tree name.now) (term_tree value) ∷ []) }
{
    let name = name.copy(alloc)?;
    known.push(Formula::relation(alloc, FormOp::Equal, name, value)?)?;
    Ok(())
}

/// The term that stands for a value that is set. What is known of it is added.
#[tactic(auto, using(crate::proofs::GivenNames::small_term, crate::proofs::GivenNames::small_used, crate::proofs::GivenNames::small_known, crate::proofs::GivenNames::large_term, crate::proofs::GivenNames::large_used, crate::proofs::GivenNames::large_known))]
pub fn named(
    alloc: Global,
    fresh: &mut Fresh,
    value: Term,
    known: &mut Vec<Formula>,
) -> Result<Term, NoMemory>
    ensures term { IfOk result (λ term. term_tree term ≡ (spec.named (used_in fresh.old) (term_tree value)).term) }
    ensures used { OnOk result (used_in fresh.new ≡ (spec.named (used_in fresh.old) (term_tree value)).used) }
    ensures known { OnOk result (map formula_tree known.new.items ≡ map formula_tree known.old.items ++ (spec.named (used_in fresh.old) (term_tree value)).links) }
{
    if !is_large(&value) {
        return Ok(value);
    }
    let name = large_name(alloc, fresh)?;
    link(alloc, &name, value, known)?;
    Ok(name)
}
