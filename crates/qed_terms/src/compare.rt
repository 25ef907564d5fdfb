// The order of terms and formulas, which of them are the same, and how large they are.
ghost use Rattle.std.specs.Prelude.{◌≡◌, ◌↔◌, ◌<◌, IsTrue};
ghost use Rattle.qed_terms.specs.Order.{back_cmp, front_cmp, kids_cmp, same, starts, tree_cmp};
ghost use Rattle.qed_terms.specs.Tree.{head_of, kids_in, size};
ghost use Rattle.qed_terms.specs.View.{formula_tree, term_tree};
ghost use Rattle.qed_terms.specs.Nodes.{node_tree, room_after};

use crate::node::Node;
use crate::term::{Formula, Term};
use std::cmp::Ordering;

/// By what stands before the kids.
fn compare_fronts(left: Node<'_>, right: Node<'_>) -> Ordering
    ensures { result ≡ front_cmp (head_of (node_tree left.entry)) (head_of (node_tree right.entry)) }
{
    let ranks = left.rank().cmp(&right.rank());
    let numbers = left.number().cmp(&right.number());
    let names = left.name().cmp(right.name());
    ranks.then(numbers.then(names))
}

/// By what stands after the kids.
#[tactic(auto, using(crate::proofs::Turns::number_turns))]
fn compare_backs(left: Node<'_>, right: Node<'_>) -> Ordering
    ensures { result ≡ back_cmp (head_of (node_tree left.entry)) (head_of (node_tree right.entry)) }
{
    let count = left.back_len();
    for at in 0..count {
        if at >= right.back_len() {
            return Ordering::Greater;
        }
        match left.back(at).cmp(&right.back(at)) {
            Ordering::Less => return Ordering::Less,
            Ordering::Equal => {}
            Ordering::Greater => return Ordering::Greater,
        }
    }
    if count < right.back_len() {
        Ordering::Less
    } else {
        Ordering::Equal
    }
}

#[cycle(compare)]
pub(crate) fn compare(left: Node<'_>, right: Node<'_>) -> Ordering
    ensures { result ≡ tree_cmp (node_tree left.entry) (node_tree right.entry) }
{
    match compare_fronts(left, right) {
        Ordering::Less => return Ordering::Less,
        Ordering::Equal => {}
        Ordering::Greater => return Ordering::Greater,
    }
    match compare_kids(left, right) {
        Ordering::Less => Ordering::Less,
        Ordering::Equal => compare_backs(left, right),
        Ordering::Greater => Ordering::Greater,
    }
}

#[cycle(compare)]
fn compare_kids(left: Node<'_>, right: Node<'_>) -> Ordering
    ensures { result ≡ kids_cmp (starts (head_of (node_tree left.entry))) (starts (head_of (node_tree right.entry))) (kids_in (node_tree left.entry)) (kids_in (node_tree right.entry)) }
{
    let count = left.kid_count();
    for at in 0..count {
        if at >= right.kid_count() {
            return Ordering::Greater;
        }
        match left.start(at).cmp(&right.start(at)) {
            Ordering::Less => return Ordering::Less,
            Ordering::Equal => {}
            Ordering::Greater => return Ordering::Greater,
        }
        match compare(left.kid(at), right.kid(at)) {
            Ordering::Less => return Ordering::Less,
            Ordering::Equal => {}
            Ordering::Greater => return Ordering::Greater,
        }
    }
    if count < right.kid_count() {
        Ordering::Less
    } else {
        Ordering::Equal
    }
}

/// What is left of the room for nodes after those of this one; none where it has more.
fn room_after(node: Node<'_>, room: usize) -> Option<usize>
    ensures { result ≡ room_after room (size (node_tree node.entry)) }
{
    if room == 0 {
        return None;
    }
    let mut left = room - 1;
    for at in 0..node.kid_count() {
        match room_after(node.kid(at), left) {
            Some(rest) => left = rest,
            None => return None,
        }
    }
    Some(left)
}

impl Term {
    /// The order of two terms: numbers by value, names by bytes, then heads in their order, then kids from the left.
    pub fn compare(&self, other: &Term) -> Ordering
        ensures { result ≡ tree_cmp (term_tree self.now) (term_tree other.now) }
    {
        compare(Node::Term(self), Node::Term(other))
    }

    pub fn is_same(&self, other: &Term) -> bool
        ensures same { result ≡ same (term_tree self.now) (term_tree other.now) }
        ensures exact { IsTrue result ↔ (self.now ≡ other.now) }
    {
        self.compare(other) == Ordering::Equal
    }

    /// Whether it has more nodes than so many; no more are counted.
    #[tactic(auto, using(crate::proofs::Sizes::larger_laws))]
    pub fn is_larger_than(&self, limit: usize) -> bool
        ensures { IsTrue result ↔ (limit < size (term_tree self.now)) }
    {
        match room_after(Node::Term(self), limit) {
            Some(_) => false,
            None => true,
        }
    }
}

impl Formula {
    /// The order of two formulas, as that of terms.
    pub fn compare(&self, other: &Formula) -> Ordering
        ensures { result ≡ tree_cmp (formula_tree self.now) (formula_tree other.now) }
    {
        compare(Node::Formula(self), Node::Formula(other))
    }

    pub fn is_same(&self, other: &Formula) -> bool
        ensures same { result ≡ same (formula_tree self.now) (formula_tree other.now) }
        ensures exact { IsTrue result ↔ (self.now ≡ other.now) }
    {
        self.compare(other) == Ordering::Equal
    }

    /// Whether it has more nodes than so many; no more are counted.
    #[tactic(auto, using(crate::proofs::Sizes::larger_laws))]
    pub fn is_larger_than(&self, limit: usize) -> bool
        ensures { IsTrue result ↔ (limit < size (formula_tree self.now)) }
    {
        match room_after(Node::Formula(self), limit) {
            Some(_) => false,
            None => true,
        }
    }

    /// What is left of the room for nodes after those of the formula; none where it has more. No more are
    /// counted than there is room for.
    pub fn room_after(&self, room: usize) -> Option<usize>
        ensures { result ≡ room_after room (size (formula_tree self.now)) }
    {
        room_after(Node::Formula(self), room)
    }
}
