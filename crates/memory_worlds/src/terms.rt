// Terms of tables, and what a name is.
ghost use Rattle.std.specs.Prelude.{◌≡◌, [], ◌∷◌, ◌++◌, map, IfOk, OnOk};
ghost use Rattle.qed_terms.specs.Tree.{at_most};
ghost use Rattle.qed_terms.specs.View.{formula_tree, term_tree};
ghost use Rattle.memory_steps.specs.World as spec;

use qed_terms::{FormOp, Formula, Term, TermOp};
use std::alloc::Global;
use wp_base::{Layout, List, NoMemory};

// One term.
fn alone(alloc: Global, term: Term) -> Result<List<Term>, NoMemory>
    ensures { IfOk result (λ kids. kids ≡ term ∷ []) }
{
    let mut kids = Vec::with_capacity(alloc, 1)?;
    kids.push(term)?;
    Ok(List::from_vec(kids))
}

/// How many blocks a table has.
#[tactic(auto, using(qed_terms::proofs::Equations::tree_laws))]
pub fn count_of(alloc: Global, table: Term) -> Result<Term, NoMemory>
    ensures { IfOk result (λ term. term_tree term ≡ spec.count_of (term_tree table)) }
{
    Ok(Term::Op(TermOp::Count, alone(alloc, table)?))
}

/// A table with blocks behind it that have ended, up to this number of blocks.
pub fn grow_of(alloc: Global, table: Term, count: Term) -> Result<Term, NoMemory>
    ensures { IfOk result (λ term. term_tree term ≡ spec.grow_of (term_tree table) (term_tree count)) }
{
    Term::over(alloc, TermOp::Grow, table, count)
}

/// A table with one more block.
#[tactic(auto, using(qed_terms::proofs::Equations::tree_laws))]
pub fn alloc_of(alloc: Global, table: Term, layout: Layout) -> Result<Term, NoMemory>
    ensures { IfOk result (λ term. term_tree term ≡ spec.alloc_of (term_tree table) layout) }
{
    Ok(Term::Op(TermOp::Alloc(layout), alone(alloc, table)?))
}

// That a name is a term: a number, or a memory.
fn link(alloc: Global, is_memory: bool, name: Term, term: Term) -> Result<Formula, NoMemory>
    ensures { IfOk result (λ formula. formula_tree formula ≡ spec.is_same is_memory (term_tree name) (term_tree term)) }
{
    if is_memory {
        Formula::relation(alloc, FormOp::Same, name, term)
    } else {
        Formula::relation(alloc, FormOp::Equal, name, term)
    }
}

/// It is known that a name is a term.
#[tactic(auto, using(crate::proofs::Pushing::map_push))]
pub fn add_link(
    alloc: Global,
    is_memory: bool,
    name: &Term,
    term: Term,
    known: &mut Vec<Formula>,
) -> Result<(), NoMemory>
    ensures { OnOk result (map formula_tree known.new.items ≡ map formula_tree known.old.items ++ spec.is_same is_memory (term_tree name.now) (term_tree term) ∷ []) }
{
    known.push(link(alloc, is_memory, name.copy(alloc)?, term)?)?;
    Ok(())
}

/// It is known that `left <= right`.
#[tactic(auto, using(crate::proofs::Pushing::map_push))]
pub fn add_order(
    alloc: Global,
    left: Term,
    right: Term,
    known: &mut Vec<Formula>,
) -> Result<(), NoMemory>
    ensures { OnOk result (map formula_tree known.new.items ≡ map formula_tree known.old.items ++ at_most (term_tree left) (term_tree right) ∷ []) }
{
    known.push(Formula::relation(alloc, FormOp::AtMost, left, right)?)?;
    Ok(())
}
