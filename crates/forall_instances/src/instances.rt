// A `forall` at a term, and at the term for which an access or a call in its body becomes another one.
ghost use Rattle.std.specs.Prelude.{◌≡◌, [], ◌∷◌, true, map, option_map, Some, All, IfSome, OnOk, IfOk};
ghost use Rattle.wp_base.specs.Blocks.{same_cell};
ghost use Rattle.qed_terms.specs.declared.head.Sort.TheVariants as sorts;
ghost use Rattle.qed_terms.specs.Store.{KeepsOlder, over};
ghost use Rattle.qed_terms.specs.Tree.{Tree, at_most, less, or_of};
ghost use Rattle.branch_changes.specs.Givens.{may_stand_for};
ghost use Rattle.instance_rows.specs.Accesses.{access_to};
ghost use Rattle.instance_rows.specs.Triggers.{at_term, call_to, instance_at, instance_by_access, instance_by_call};
ghost use Rattle.qed_linear.specs.View.{lin_of};
ghost use Rattle.forall_instances.specs.Foralls.{forall_of, ForallHeld};
ghost use Rattle.forall_instances.specs.Forms.{may_pass, term_by};

use crate::foralls::IdForall;
use crate::forms::{Beside, Passes, is_same_name};
use crate::terms::{term_by, term_where};
use branch_changes::IdGiven;
use equality_variables::may_stand_for;
use qed_linear::LinForm;
use qed_terms::{FormOp, Head, Sort, TermStore};
use std::alloc::Global;
use stored_normals::fits_over;
use stored_puts::{may_put, put_in};
use wp_base::{CellKind, NoMemory, Str};

fn pair<I: Copy + Drop>(alloc: Global, first: I, second: I) -> Result<Vec<I>, NoMemory>
    ensures { IfOk result (λ list. list.items ≡ first ∷ second ∷ []) }
{
    let mut list = Vec::new(alloc);
    list.push(first)?;
    list.push(second)?;
    Ok(list)
}

fn triple<I: Copy + Drop>(alloc: Global, first: I, second: I, third: I) -> Result<Vec<I>, NoMemory>
    ensures { IfOk result (λ list. list.items ≡ first ∷ second ∷ third ∷ []) }
{
    let mut list = pair(alloc, first, second)?;
    list.push(third)?;
    Ok(list)
}

// The node of a head over ids. Where it isn't well formed no store may hold it: the answer is then `NoMemory`, though memory may be left. An instance of a
// well formed `forall` is well formed.
fn made_over<S: TermStore>(store: &mut S, head: Head, kids: &[S::Id]) -> Result<S::Id, NoMemory>
    requires { All (S.held store.old) kids.now }
    ensures older { OnOk result (KeepsOlder (S.held store.old) (S.held store.new) (S.tree store.old) (S.tree store.new)) }
    ensures held { IfOk result (λ id. S.held store.new id) }
    ensures stands { IfOk result (λ id. S.tree store.new id ≡ over head (map (S.tree store.old) kids.now)) }
{
    if !fits_over(&*store, &head, kids) {
        return Err(NoMemory);
    }
    let id = store.make(head, kids)?;
    Ok(id)
}

fn related<S: TermStore>(
    alloc: Global,
    store: &mut S,
    head: Head,
    left: S::Id,
    right: S::Id,
) -> Result<S::Id, NoMemory>
    requires left { S.held store.old left }
    requires right { S.held store.old right }
    ensures older { OnOk result (KeepsOlder (S.held store.old) (S.held store.new) (S.tree store.old) (S.tree store.new)) }
    ensures held { IfOk result (λ id. S.held store.new id) }
    ensures stands { IfOk result (λ id. S.tree store.new id ≡ over head (S.tree store.old left ∷ S.tree store.old right ∷ [])) }
{
    let kids = pair(alloc, left, right)?;
    let id = made_over(store, head, kids.as_slice())?;
    Ok(id)
}

fn any_of<S: TermStore>(
    alloc: Global,
    store: &mut S,
    first: S::Id,
    second: S::Id,
    third: S::Id,
) -> Result<S::Id, NoMemory>
    requires first { S.held store.old first }
    requires second { S.held store.old second }
    requires third { S.held store.old third }
    ensures older { OnOk result (KeepsOlder (S.held store.old) (S.held store.new) (S.tree store.old) (S.tree store.new)) }
    ensures held { IfOk result (λ id. S.held store.new id) }
    ensures stands { IfOk result (λ id. S.tree store.new id ≡ or_of (S.tree store.old first ∷ S.tree store.old second ∷ S.tree store.old third ∷ [])) }
{
    let kids = triple(alloc, first, second, third)?;
    let id = made_over(store, Head::Or, kids.as_slice())?;
    Ok(id)
}

fn given_by<I: Copy + Drop>(alloc: Global, name: &Str, term: I) -> Result<IdGiven<I>, NoMemory>
    ensures name { IfOk result (λ given. given.name ≡ name.now) }
    ensures sort { IfOk result (λ given. given.sort ≡ sorts.Int) }
    ensures term { IfOk result (λ given. given.term ≡ term) }
{
    let name = name.copy(alloc)?;
    Ok(IdGiven {
        name,
        sort: Sort::Int,
        term,
    })
}

// Where its bounds don't hold the term, or else its body with the term for the name.
fn at_term<S: TermStore>(
    alloc: Global,
    store: &mut S,
    quantified: &IdForall<S::Id>,
    given: &IdGiven<S::Id>,
) -> Result<S::Id, NoMemory>
    requires quantified { ForallHeld (S.held store.old) quantified.now }
    requires term { S.held store.old given.now.term }
    requires stands { may_stand_for given.now.sort (S.tree store.old given.now.term) ≡ true }
    requires name { given.now.name ≡ quantified.now.name }
    requires sort { given.now.sort ≡ sorts.Int }
    ensures older { OnOk result (KeepsOlder (S.held store.old) (S.held store.new) (S.tree store.old) (S.tree store.new)) }
    ensures held { IfOk result (λ id. S.held store.new id) }
    ensures instance { IfOk result (λ id. S.tree store.new id ≡ at_term (forall_of (S.tree store.old) quantified.now) (S.tree store.old given.now.term)) }
{
    let body = put_in(alloc, store, given, quantified.body)?;
    let low = related(
        alloc,
        store,
        Head::Form(FormOp::Less),
        given.term,
        quantified.low,
    )?;
    let high = related(
        alloc,
        store,
        Head::Form(FormOp::AtMost),
        quantified.high,
        given.term,
    )?;
    let made = any_of(alloc, store, low, high, body)?;
    Ok(made)
}

// A name of an integer that has the form of a memory's is no argument of a logic function, so an instance by it may not be well formed: the answer is then
// `NoMemory`, though memory may be left. Only a goal written by hand has such a name.
fn instance_with<S: TermStore>(
    alloc: Global,
    store: &mut S,
    quantified: &IdForall<S::Id>,
    term: S::Id,
) -> Result<Option<S::Id>, NoMemory>
    requires quantified { ForallHeld (S.held store.old) quantified.now }
    requires term { S.held store.old term }
    ensures older { OnOk result (KeepsOlder (S.held store.old) (S.held store.new) (S.tree store.old) (S.tree store.new)) }
    ensures held { IfOk result (λ made. IfSome made (λ id. S.held store.new id)) }
    ensures instance { IfOk result (λ made. option_map (S.tree store.new) made ≡ instance_at (forall_of (S.tree store.old) quantified.now) (Some (S.tree store.old term))) }
{
    let given = given_by(alloc, &quantified.name, term)?;
    if !may_put(&*store, &given, quantified.body) {
        return Ok(None);
    }
    if !may_stand_for(&*store, Sort::Int, term) {
        return Err(NoMemory);
    }
    let made = at_term(alloc, store, quantified, &given)?;
    Ok(Some(made))
}

/// The instance of a `forall` at a term, where there is one, and no quantifier in the body binds a name of the term.
pub fn instance_at<S: TermStore>(
    alloc: Global,
    store: &mut S,
    quantified: &IdForall<S::Id>,
    term: Option<S::Id>,
) -> Result<Option<S::Id>, NoMemory>
    requires quantified { ForallHeld (S.held store.old) quantified.now }
    requires term { IfSome term (λ id. S.held store.old id) }
    ensures older { OnOk result (KeepsOlder (S.held store.old) (S.held store.new) (S.tree store.old) (S.tree store.new)) }
    ensures held { IfOk result (λ made. IfSome made (λ id. S.held store.new id)) }
    ensures instance { IfOk result (λ made. option_map (S.tree store.new) made ≡ instance_at (forall_of (S.tree store.old) quantified.now) (option_map (S.tree store.old) term)) }
{
    match term {
        None => Ok(None),
        Some(term) => {
            let made = instance_with(alloc, store, quantified, term)?;
            Ok(made)
        }
    }
}

// ---- by a trigger

#[tactic(auto, using(qed_memories::proofs::Cells::is_same_cell, qed_memories::proofs::Cells::other_cell))]
fn is_same_kind(kind: CellKind, other: CellKind) -> bool
    ensures { result ≡ same_cell kind other }
{
    kind == other
}

/// The instance of a `forall` at the term for which its name makes a form that was taken apart another form. Forms that are asked for often are made once so.
pub fn instance_by_forms<S: TermStore>(
    alloc: Global,
    store: &mut S,
    quantified: &IdForall<S::Id>,
    which: Passes,
    with_name: &Beside,
    other: &LinForm,
) -> Result<Option<S::Id>, NoMemory>
    requires { ForallHeld (S.held store.old) quantified.now }
    ensures older { OnOk result (KeepsOlder (S.held store.old) (S.held store.new) (S.tree store.old) (S.tree store.new)) }
    ensures held { IfOk result (λ made. IfSome made (λ id. S.held store.new id)) }
    ensures instance { IfOk result (λ made. option_map (S.tree store.new) made ≡ instance_at (forall_of (S.tree store.old) quantified.now) (term_by (may_pass which) with_name.now (lin_of other.now))) }
{
    let term = term_by(alloc, store, which, with_name, other)?;
    let made = instance_at(alloc, store, quantified, term)?;
    Ok(made)
}

/// The instance of a `forall` by an access in its body, to a cell of the kind `trigger` at `offset`, and one in the branch, to a cell of the kind `kind` at
/// `there`.
pub fn instance_by_access<S: TermStore>(
    alloc: Global,
    store: &mut S,
    quantified: &IdForall<S::Id>,
    trigger: CellKind,
    offset: S::Id,
    kind: CellKind,
    there: S::Id,
) -> Result<Option<S::Id>, NoMemory>
    requires quantified { ForallHeld (S.held store.old) quantified.now }
    requires offset { S.held store.old offset }
    requires there { S.held store.old there }
    ensures older { OnOk result (KeepsOlder (S.held store.old) (S.held store.new) (S.tree store.old) (S.tree store.new)) }
    ensures held { IfOk result (λ made. IfSome made (λ id. S.held store.new id)) }
    ensures instance { IfOk result (λ made. (block other : Tree) → option_map (S.tree store.new) made ≡ instance_by_access (forall_of (S.tree store.old) quantified.now) (access_to block (S.tree store.old offset) trigger) (access_to other (S.tree store.old there) kind)) }
{
    if !is_same_kind(trigger, kind) {
        return Ok(None);
    }
    let name = quantified.name.bytes();
    let term = term_where(alloc, store, Passes::Nonzero, name, offset, there)?;
    let made = instance_at(alloc, store, quantified, term)?;
    Ok(made)
}

/// The instance of a `forall` by a call in its body, of the function `trigger` with `number` counting down, and one in the branch, of `function` with `there`.
pub fn instance_by_call<S: TermStore>(
    alloc: Global,
    store: &mut S,
    quantified: &IdForall<S::Id>,
    trigger: &[u8],
    number: S::Id,
    function: &[u8],
    there: S::Id,
) -> Result<Option<S::Id>, NoMemory>
    requires quantified { ForallHeld (S.held store.old) quantified.now }
    requires number { S.held store.old number }
    requires there { S.held store.old there }
    ensures older { OnOk result (KeepsOlder (S.held store.old) (S.held store.new) (S.tree store.old) (S.tree store.new)) }
    ensures held { IfOk result (λ made. IfSome made (λ id. S.held store.new id)) }
    ensures instance { IfOk result (λ made. option_map (S.tree store.new) made ≡ instance_by_call (forall_of (S.tree store.old) quantified.now) (call_to trigger.now (S.tree store.old number)) (call_to function.now (S.tree store.old there))) }
{
    if !is_same_name(trigger, function) {
        return Ok(None);
    }
    let name = quantified.name.bytes();
    let term = term_where(alloc, store, Passes::One, name, number, there)?;
    let made = instance_at(alloc, store, quantified, term)?;
    Ok(made)
}
