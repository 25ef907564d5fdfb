// Linear forms as terms of a store are written.
ghost use Rattle.std.specs.Prelude.{◌≡◌, ◌≤◌, ◌∷◌, [], length, map, take, All, IfOk};
ghost use Rattle.qed_linear.specs.Linear.{lin};
ghost use Rattle.same_terms.specs.Written.{is_product, number_in, multiple, written_part, written, parts_in, constant_in};
ghost use Rattle.equality_variables.specs.Forms.{part_of, lin_of, PartsHeld};

use qed_terms::{Head, TermOp, TermStore};
use std::alloc::Global;
use term_forms::{is_sum, number_in};
use wp_base::NoMemory;

/// An atom and its coefficient.
pub type IdPart<I> = (I, i128);

/// Atoms with their coefficients, and a constant.
#[derive(Drop)]
pub struct IdForm<I> {
    pub parts: Vec<(I, i128)>,
    pub constant: i128,
}

fn form_with<I: Copy + Drop>(parts: Vec<(I, i128)>, constant: i128) -> IdForm<I>
    ensures parts { result.parts.items ≡ parts.items }
    ensures constant { result.constant ≡ constant }
{
    IdForm { parts, constant }
}

/// Whether it is the head of a product.
fn is_product(head: &Head) -> bool
    ensures { result ≡ is_product head.now }
{
    match head {
        Head::Term(TermOp::Mul) => true,
        _ => false,
    }
}

fn number_at<S: TermStore>(store: &S, id: S::Id) -> Option<i128>
    requires { S.held store.now id }
    ensures { result ≡ number_in (S.tree store.now id) }
{
    number_in(store.head(id))
}

fn pair<I: Copy + Drop>(atom: I, times: i128) -> (I, i128)
    ensures { result ≡ (atom, times) }
{
    (atom, times)
}

/// Two factors as a number times an atom, where the first one is a number.
fn multiple<S: TermStore>(store: &S, id: S::Id, first: S::Id, second: S::Id) -> (S::Id, i128)
    requires id { S.held store.now id }
    requires first { S.held store.now first }
    requires second { S.held store.now second }
    ensures part { part_of (S.tree store.now) result ≡ multiple (number_in (S.tree store.now first)) (S.tree store.now second) (S.tree store.now id) }
    ensures held { S.held store.now result.0 }
{
    match number_at(store, first) {
        Some(times) => pair(second, times),
        None => pair(id, 1),
    }
}

/// A term as a number times an atom.
fn written_part<S: TermStore>(store: &S, id: S::Id) -> (S::Id, i128)
    requires { S.held store.now id }
    ensures part { part_of (S.tree store.now) result ≡ written_part (S.tree store.now id) }
    ensures held { S.held store.now result.0 }
{
    if !is_product(store.head(id)) {
        return pair(id, 1);
    }
    let kids = store.kids(id);
    if kids.len() != 2 {
        return pair(id, 1);
    }
    multiple(store, id, kids[0], kids[1])
}

/// So many terms, as numbers times atoms.
fn front_parts<S: TermStore>(
    alloc: Global,
    store: &S,
    terms: &[S::Id],
    count: usize,
) -> Result<Vec<(S::Id, i128)>, NoMemory>
    requires held { All (S.held store.now) terms.now }
    requires count { count ≤ length terms.now }
    ensures parts { IfOk result (λ parts. map (part_of (S.tree store.now)) parts.items ≡ map written_part (map (S.tree store.now) (take count terms.now))) }
    ensures held { IfOk result (λ parts. PartsHeld (S.held store.now) parts.items) }
{
    let mut parts = Vec::new(alloc);
    for i in 0..count {
        parts.push(written_part(store, terms[i]))?;
    }
    Ok(parts)
}

/// The form that terms are, as they are written.
fn form_of<S: TermStore>(
    alloc: Global,
    store: &S,
    terms: &[S::Id],
) -> Result<IdForm<S::Id>, NoMemory>
    requires { All (S.held store.now) terms.now }
    ensures form { IfOk result (λ form. lin_of (S.tree store.now) form ≡ lin (parts_in (map (S.tree store.now) terms.now)) (constant_in (map (S.tree store.now) terms.now))) }
    ensures held { IfOk result (λ form. PartsHeld (S.held store.now) form.parts.items) }
{
    let count = terms.len();
    if count == 0 {
        return Ok(IdForm {
            parts: Vec::new(alloc),
            constant: 0,
        });
    }
    let last = terms[count - 1];
    let mut parts = front_parts(alloc, store, terms, count - 1)?;
    match number_at(store, last) {
        Some(constant) => Ok(form_with(parts, constant)),
        None => {
            parts.push(written_part(store, last))?;
            Ok(form_with(parts, 0))
        }
    }
}

fn alone<I: Copy + Drop>(alloc: Global, item: I) -> Result<Vec<I>, NoMemory>
    ensures { IfOk result (λ list. list.items ≡ item ∷ []) }
{
    let mut list = Vec::new(alloc);
    list.push(item)?;
    Ok(list)
}

/// The form that a term is, as it is written.
pub fn written<S: TermStore>(alloc: Global, store: &S, id: S::Id) -> Result<IdForm<S::Id>, NoMemory>
    requires { S.held store.now id }
    ensures form { IfOk result (λ form. lin_of (S.tree store.now) form ≡ written (S.tree store.now id)) }
    ensures held { IfOk result (λ form. PartsHeld (S.held store.now) form.parts.items) }
{
    if is_sum(store.head(id)) {
        let form = form_of(alloc, store, store.kids(id))?;
        return Ok(form);
    }
    let alone = alone(alloc, id)?;
    let form = form_of(alloc, store, alone.as_slice())?;
    Ok(form)
}
