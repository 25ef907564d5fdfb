// Terms of linear forms, put into a store.
ghost use Rattle.std.specs.Prelude.{◌≡◌, ◌++◌, ◌∷◌, [], true, map, OnOk, IfOk};
ghost use Rattle.std.specs.Ordering.{int_eq};
ghost use Rattle.qed_terms.specs.Store.{KeepsOlder};
ghost use Rattle.qed_terms.specs.Tree.{num};
ghost use Rattle.qed_terms.specs.WellFormed.{fits, int};
ghost use Rattle.qed_linear.specs.Linear.{part, part_tree, sum_tree, constant_trees};
ghost use Rattle.equality_variables.specs.Forms.{AreTerms};

use qed_terms::{Head, TermOp, TermStore};
use std::alloc::Global;
use wp_base::NoMemory;

pub fn are_equal(number: i128, other: i128) -> bool
    ensures { result ≡ int_eq number other }
{
    number == other
}

fn two<I: Copy + Drop>(alloc: Global, first: I, second: I) -> Result<Vec<I>, NoMemory>
    ensures { IfOk result (λ list. list.items ≡ first ∷ second ∷ []) }
{
    let mut list = Vec::new(alloc);
    list.push(first)?;
    list.push(second)?;
    Ok(list)
}

/// A number as a term.
fn number_term<S: TermStore>(alloc: Global, store: &mut S, number: i128) -> Result<S::Id, NoMemory>
    ensures older { OnOk result (KeepsOlder (S.held store.old) (S.held store.new) (S.tree store.old) (S.tree store.new)) }
    ensures held { IfOk result (λ id. S.held store.new id) }
    ensures tree { IfOk result (λ id. S.tree store.new id ≡ num number) }
{
    let none = Vec::new(alloc);
    let id = store.make(Head::Num(number), none.as_slice())?;
    Ok(id)
}

/// A number times an atom.
pub fn multiple_term<S: TermStore>(
    alloc: Global,
    store: &mut S,
    atom: S::Id,
    times: i128,
) -> Result<S::Id, NoMemory>
    requires held { S.held store.old atom }
    requires fits { fits int (S.tree store.old atom) ≡ true }
    ensures older { OnOk result (KeepsOlder (S.held store.old) (S.held store.new) (S.tree store.old) (S.tree store.new)) }
    ensures held { IfOk result (λ id. S.held store.new id) }
    ensures tree { IfOk result (λ id. S.tree store.new id ≡ part_tree (part (S.tree store.old atom) times)) }
{
    if are_equal(times, 1) {
        return Ok(atom);
    }
    let number = number_term(alloc, store, times)?;
    let kids = two(alloc, number, atom)?;
    let id = store.make(Head::Term(TermOp::Mul), kids.as_slice())?;
    Ok(id)
}

/// The constant behind the terms, where it isn't 0.
fn put_constant<S: TermStore>(
    alloc: Global,
    store: &mut S,
    constant: i128,
    terms: &mut Vec<S::Id>,
) -> Result<(), NoMemory>
    requires { AreTerms (S.held store.old) (S.tree store.old) terms.old.items }
    ensures older { OnOk result (KeepsOlder (S.held store.old) (S.held store.new) (S.tree store.old) (S.tree store.new)) }
    ensures terms { OnOk result (AreTerms (S.held store.new) (S.tree store.new) terms.new.items) }
    ensures trees { OnOk result (map (S.tree store.new) terms.new.items ≡ map (S.tree store.old) terms.old.items ++ constant_trees constant) }
{
    if are_equal(constant, 0) {
        return Ok(());
    }
    let id = number_term(alloc, store, constant)?;
    terms.push(id)?;
    Ok(())
}

/// The sum of some terms.
fn sum_term<S: TermStore>(alloc: Global, store: &mut S, terms: &[S::Id]) -> Result<S::Id, NoMemory>
    requires { AreTerms (S.held store.old) (S.tree store.old) terms.now }
    ensures older { OnOk result (KeepsOlder (S.held store.old) (S.held store.new) (S.tree store.old) (S.tree store.new)) }
    ensures held { IfOk result (λ id. S.held store.new id) }
    ensures tree { IfOk result (λ id. S.tree store.new id ≡ sum_tree (map (S.tree store.old) terms.now)) }
{
    if terms.len() == 0 {
        let zero = number_term(alloc, store, 0)?;
        return Ok(zero);
    }
    if terms.len() == 1 {
        return Ok(terms[0]);
    }
    let sum = store.make(Head::Term(TermOp::Add), terms)?;
    Ok(sum)
}

/// The sum of some terms and a constant.
pub fn sum_with<S: TermStore>(
    alloc: Global,
    store: &mut S,
    terms: Vec<S::Id>,
    constant: i128,
) -> Result<S::Id, NoMemory>
    requires { AreTerms (S.held store.old) (S.tree store.old) terms.items }
    ensures older { OnOk result (KeepsOlder (S.held store.old) (S.held store.new) (S.tree store.old) (S.tree store.new)) }
    ensures held { IfOk result (λ id. S.held store.new id) }
    ensures tree { IfOk result (λ id. S.tree store.new id ≡ sum_tree (map (S.tree store.old) terms.items ++ constant_trees constant)) }
{
    let mut terms = terms;
    put_constant(alloc, store, constant, &mut terms)?;
    let id = sum_term(alloc, store, terms.as_slice())?;
    Ok(id)
}
