// The term for which a name makes one term another, in a store.
ghost use Rattle.std.specs.Prelude.{◌≡◌, option_map, IfSome, OnOk, IfOk};
ghost use Rattle.qed_terms.specs.Store.{KeepsOlder};
ghost use Rattle.qed_ids.specs.Made.{made_tree};
ghost use Rattle.qed_linear.specs.Linear.{of_lin, to_lin};
ghost use Rattle.qed_linear.specs.View.{lin_of};
ghost use Rattle.instance_rows.specs.Triggers.{term_where};
ghost use Rattle.forall_instances.specs.Forms.{may_pass, term_by};

use crate::forms::{Beside, Passes, solved, taken_apart};
use qed_ids::{Made, lower_node};
use qed_linear::{LinForm, form_of, into_term};
use qed_terms::{Node, TermStore};
use std::alloc::Global;
use stored_normals::lift_node;
use wp_base::NoMemory;

// The form of a term. A formula has none: the answer is then `NoMemory`, though memory may be left. No access and no call has one as its offset or number.
fn form_of_made(alloc: Global, read: &Made) -> Result<LinForm, NoMemory>
    ensures { IfOk result (λ form. lin_of form ≡ to_lin (made_tree read.now)) }
{
    match read {
        Made::Term(term) => {
            let form = form_of(alloc, term)?;
            Ok(form)
        }
        Made::Formula(_) => Err(NoMemory),
    }
}

/// The form of the term of an id.
pub fn form_at<S: TermStore>(alloc: Global, store: &S, id: S::Id) -> Result<LinForm, NoMemory>
    requires { S.held store.now id }
    ensures { IfOk result (λ form. lin_of form ≡ to_lin (S.tree store.now id)) }
{
    let read = lower_node(alloc, store, id)?;
    let form = form_of_made(alloc, &read)?;
    Ok(form)
}

// The term of a form.
fn form_term<S: TermStore>(alloc: Global, store: &mut S, form: LinForm) -> Result<S::Id, NoMemory>
    ensures older { OnOk result (KeepsOlder (S.held store.old) (S.held store.new) (S.tree store.old) (S.tree store.new)) }
    ensures held { IfOk result (λ id. S.held store.new id) }
    ensures stands { IfOk result (λ id. S.tree store.new id ≡ of_lin (lin_of form)) }
{
    let term = into_term(alloc, form)?;
    let id = lift_node(alloc, store, Node::Term(&term))?;
    Ok(id)
}

/// The term for which the name makes the form that was taken apart the other one, where there is one.
pub fn term_by<S: TermStore>(
    alloc: Global,
    store: &mut S,
    which: Passes,
    with_name: &Beside,
    other: &LinForm,
) -> Result<Option<S::Id>, NoMemory>
    ensures older { OnOk result (KeepsOlder (S.held store.old) (S.held store.new) (S.tree store.old) (S.tree store.new)) }
    ensures held { IfOk result (λ made. IfSome made (λ id. S.held store.new id)) }
    ensures term { IfOk result (λ made. option_map (S.tree store.new) made ≡ term_by (may_pass which) with_name.now (lin_of other.now)) }
{
    let form = solved(alloc, which, with_name, other)?;
    match form {
        None => Ok(None),
        Some(form) => {
            let id = form_term(alloc, store, form)?;
            Ok(Some(id))
        }
    }
}

/// The term for which the name makes the first term the other one, where there is one: the coefficient of the name passes and goes into all that is left,
/// and the term fits 128 bits.
pub fn term_where<S: TermStore>(
    alloc: Global,
    store: &mut S,
    which: Passes,
    name: &[u8],
    with_name: S::Id,
    other: S::Id,
) -> Result<Option<S::Id>, NoMemory>
    requires with_name { S.held store.old with_name }
    requires other { S.held store.old other }
    ensures older { OnOk result (KeepsOlder (S.held store.old) (S.held store.new) (S.tree store.old) (S.tree store.new)) }
    ensures held { IfOk result (λ made. IfSome made (λ id. S.held store.new id)) }
    ensures term { IfOk result (λ made. option_map (S.tree store.new) made ≡ term_where (may_pass which) name.now (S.tree store.old with_name) (S.tree store.old other)) }
{
    let form = form_at(alloc, &*store, with_name)?;
    let beside = taken_apart(name, form);
    let there = form_at(alloc, &*store, other)?;
    let made = term_by(alloc, store, which, &beside, &there)?;
    Ok(made)
}
