// Forms as terms are written, by places.
ghost use Rattle.std.specs.Prelude.{◌≡◌, ◌<◌, ◌≤◌, ◌∷◌, [], length, map, take, All, IfOk};
ghost use Rattle.same_places.specs.Same.{PartsWithin};
ghost use Rattle.same_terms.specs.Stands.{tree_part};
ghost use Rattle.qed_terms.specs.Nodes.{kids_of};
ghost use Rattle.qed_terms.specs.Tree.{head_of};
ghost use Rattle.qed_linear.specs.Linear.{lin};
ghost use Rattle.same_terms.specs.Written.{number_in, multiple, written_part, written, terms_in, parts_in, constant_in};
ghost use Rattle.tree_places.specs.View.{IsKept};
ghost use Rattle.term_forms.specs.Forms.{tree_of, count_of, lin_of};

use crate::heads::{is_product, is_sum, number_in};
use same_places::Part;
use std::alloc::Global;
use tree_places::{TreeNode, TreeTable};
use wp_base::NoMemory;

/// Places with their coefficients, and a constant.
#[derive(Drop)]
pub struct Form {
    pub parts: Vec<Part>,
    pub constant: i128,
}

/// A form of these parts and this constant.
pub fn form_with(parts: Vec<Part>, constant: i128) -> Form
    ensures parts { result.parts.items ≡ parts.items }
    ensures constant { result.constant ≡ constant }
{
    Form { parts, constant }
}

/// The node at a place.
pub fn node_at(table: &TreeTable, place: usize) -> &TreeNode
    requires kept { IsKept table.now }
    requires below { place < count_of table.now }
    ensures head { result.now.head ≡ head_of (tree_of table.now place) }
    ensures kids { map (tree_of table.now) result.now.kids.items ≡ kids_of (tree_of table.now place) }
    ensures below { All (λ k. k < count_of table.now) result.now.kids.items }
{
    &table.nodes[place]
}

/// The number at a place.
pub fn number_at(table: &TreeTable, place: usize) -> Option<i128>
    requires kept { IsKept table.now }
    requires below { place < count_of table.now }
    ensures { result ≡ number_in (tree_of table.now place) }
{
    number_in(&node_at(table, place).head)
}

pub fn pair(place: usize, times: i128) -> Part
    ensures { result ≡ (place, times) }
{
    (place, times)
}

/// Two factors at places as a number times an atom, where the first one is a number.
fn multiple(table: &TreeTable, place: usize, first: usize, second: usize) -> Part
    requires kept { IsKept table.now }
    requires below { place < count_of table.now }
    requires first { first < count_of table.now }
    requires second { second < count_of table.now }
    ensures part { tree_part (tree_of table.now) result ≡ multiple (number_in (tree_of table.now first)) (tree_of table.now second) (tree_of table.now place) }
    ensures below { result.0 < count_of table.now }
{
    match number_at(table, first) {
        Some(times) => pair(second, times),
        None => pair(place, 1),
    }
}

/// A place as a number times an atom.
fn written_part(table: &TreeTable, place: usize) -> Part
    requires kept { IsKept table.now }
    requires below { place < count_of table.now }
    ensures part { tree_part (tree_of table.now) result ≡ written_part (tree_of table.now place) }
    ensures below { result.0 < count_of table.now }
{
    let node = node_at(table, place);
    if !is_product(&node.head) {
        return pair(place, 1);
    }
    if node.kids.len() != 2 {
        return pair(place, 1);
    }
    multiple(table, place, node.kids[0], node.kids[1])
}

fn single(alloc: Global, place: usize) -> Result<Vec<usize>, NoMemory>
    ensures { IfOk result (λ list. list.items ≡ place ∷ []) }
{
    let mut list = Vec::new(alloc);
    list.push(place)?;
    Ok(list)
}

/// The terms of a sum; of any other term itself.
fn terms_in(alloc: Global, table: &TreeTable, place: usize) -> Result<Vec<usize>, NoMemory>
    requires kept { IsKept table.now }
    requires below { place < count_of table.now }
    ensures terms { IfOk result (λ terms. map (tree_of table.now) terms.items ≡ terms_in (tree_of table.now place)) }
    ensures below { IfOk result (λ terms. All (λ k. k < count_of table.now) terms.items) }
{
    let node = node_at(table, place);
    if !is_sum(&node.head) {
        let alone = single(alloc, place)?;
        return Ok(alone);
    }
    let terms = Vec::from_slice(alloc, node.kids.as_slice())?;
    Ok(terms)
}

/// So many of them, as numbers times atoms.
fn front_parts(
    alloc: Global,
    table: &TreeTable,
    terms: &[usize],
    count: usize,
) -> Result<Vec<Part>, NoMemory>
    requires kept { IsKept table.now }
    requires below { All (λ k. k < count_of table.now) terms.now }
    requires count { count ≤ length terms.now }
    ensures parts { IfOk result (λ parts. map (tree_part (tree_of table.now)) parts.items ≡ map written_part (map (tree_of table.now) (take count terms.now))) }
    ensures below { IfOk result (λ parts. PartsWithin (count_of table.now) parts.items) }
{
    let mut parts = Vec::new(alloc);
    for i in 0..count {
        parts.push(written_part(table, terms[i]))?;
    }
    Ok(parts)
}

/// The form that terms are, as they are written.
fn form_of(alloc: Global, table: &TreeTable, terms: &[usize]) -> Result<Form, NoMemory>
    requires kept { IsKept table.now }
    requires below { All (λ k. k < count_of table.now) terms.now }
    ensures form { IfOk result (λ form. lin_of (tree_of table.now) form ≡ lin (parts_in (map (tree_of table.now) terms.now)) (constant_in (map (tree_of table.now) terms.now))) }
    ensures below { IfOk result (λ form. PartsWithin (count_of table.now) form.parts.items) }
{
    let count = terms.len();
    if count == 0 {
        return Ok(Form {
            parts: Vec::new(alloc),
            constant: 0,
        });
    }
    let last = terms[count - 1];
    let mut parts = front_parts(alloc, table, terms, count - 1)?;
    match number_at(table, last) {
        Some(constant) => Ok(form_with(parts, constant)),
        None => {
            parts.push(written_part(table, last))?;
            Ok(form_with(parts, 0))
        }
    }
}

/// The form that the term at a place is, as it is written.
pub fn written(alloc: Global, table: &TreeTable, place: usize) -> Result<Form, NoMemory>
    requires kept { IsKept table.now }
    requires below { place < count_of table.now }
    ensures form { IfOk result (λ form. lin_of (tree_of table.now) form ≡ written (tree_of table.now place)) }
    ensures below { IfOk result (λ form. PartsWithin (count_of table.now) form.parts.items) }
{
    let terms = terms_in(alloc, table, place)?;
    let form = form_of(alloc, table, terms.as_slice())?;
    Ok(form)
}
