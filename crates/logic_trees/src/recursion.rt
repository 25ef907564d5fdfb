// The form of logic functions that call themselves (ACSL 2.6.3).
ghost use Rattle.std.specs.Prelude.{◌≡◌};
ghost use Rattle.acsl_trees.specs.Tree.{node, trees_of, view_tree, view_trees};
ghost use Rattle.c_runs.specs.Recursion as recursion;
ghost use Rattle.logic_order.specs.Recursive as spec;
ghost use Rattle.logic_trees.specs.Every as every;
ghost use Rattle.std.specs.Option.{is_some};

use crate::heads::{
    is_at_most, is_choice, is_name, is_one_of, is_own, is_subtraction, name_in, number_in,
};
use crate::walks::{goes_down, never_calls};
use acsl_trees::{Head, Tree};

// ---- one less

// The name, and a number 1.
fn is_step(name: usize, first: Head, second: Head) -> bool
    ensures { result ≡ every.is_step name first second }
{
    is_name(name, name_in(first)) && is_one_of(number_in(second))
}

#[tactic(auto, using(crate::proofs::Forms::less_laws))]
fn is_less(name: usize, head: Head, kids: &[Tree]) -> bool
    ensures { result ≡ recursion.is_one_less name (node head (trees_of (view_trees kids.now))) }
{
    let fits = is_subtraction(head);
    if !fits {
        return false;
    }
    if kids.len() != 2 {
        return false;
    }
    is_step(name, kids[0].head, kids[1].head)
}

#[tactic(auto, using(crate::proofs::Forms::less_whole))]
fn is_one_less(name: usize, tree: &Tree) -> bool
    ensures { result ≡ recursion.is_one_less name (view_tree tree.now) }
{
    is_less(name, tree.head, tree.kids.as_slice())
}

#[tactic(auto, using(crate::proofs::Forms::last_laws))]
fn last_is_less(name: usize, kids: &[Tree]) -> bool
    ensures { result ≡ recursion.is_one_less name (recursion.last_kid (trees_of (view_trees kids.now))) }
{
    if kids.len() == 0 {
        return false;
    }
    let last = kids.len() - 1;
    is_one_less(name, &kids[last])
}

/// Whether the node is no call of the function, or one whose last argument is one less than the name.
pub(crate) fn steps_down(number: u32, name: usize, head: Head, kids: &[Tree]) -> bool
    ensures { result ≡ every.steps_down number name head (trees_of (view_trees kids.now)) }
{
    if is_own(number, head) {
        last_is_less(name, kids)
    } else {
        true
    }
}

// ---- the whole form

#[tactic(auto, using(crate::proofs::Forms::name_laws))]
fn is_name_of(name: usize, tree: &Tree) -> bool
    ensures { result ≡ spec.is_name_of name (view_tree tree.now) }
{
    let kids = tree.kids.as_slice();
    if kids.len() != 0 {
        return false;
    }
    is_name(name, name_in(tree.head))
}

fn is_there(found: Option<i128>) -> bool
    ensures { result ≡ is_some found }
{
    match found {
        Some(_) => true,
        None => false,
    }
}

#[tactic(auto, using(crate::proofs::Forms::number_laws))]
fn is_number(tree: &Tree) -> bool
    ensures { result ≡ spec.is_number (view_tree tree.now) }
{
    let kids = tree.kids.as_slice();
    if kids.len() != 0 {
        return false;
    }
    is_there(number_in(tree.head))
}

fn are_ends(name: usize, first: &Tree, second: &Tree) -> bool
    ensures { result ≡ every.are_ends name (view_tree first.now) (view_tree second.now) }
{
    is_name_of(name, first) && is_number(second)
}

#[tactic(auto, using(crate::proofs::Forms::bound_laws))]
fn is_bound_at(name: usize, head: Head, kids: &[Tree]) -> bool
    ensures { result ≡ spec.is_bound name (node head (trees_of (view_trees kids.now))) }
{
    let fits = is_at_most(head);
    if !fits {
        return false;
    }
    if kids.len() != 2 {
        return false;
    }
    are_ends(name, &kids[0], &kids[1])
}

#[tactic(auto, using(crate::proofs::Forms::bound_whole))]
fn is_bound(name: usize, tree: &Tree) -> bool
    ensures { result ≡ spec.is_bound name (view_tree tree.now) }
{
    is_bound_at(name, tree.head, tree.kids.as_slice())
}

fn are_parts(number: u32, name: usize, test: &Tree, base: &Tree, step: &Tree) -> bool
    ensures { result ≡ every.are_parts number name (view_tree test.now) (view_tree base.now) (view_tree step.now) }
{
    if !is_bound(name, test) {
        return false;
    }
    never_calls(base, number) && goes_down(step, number, name)
}

#[tactic(auto, using(crate::proofs::Forms::choice_laws))]
fn is_recursion_at(number: u32, name: usize, head: Head, kids: &[Tree]) -> bool
    ensures { result ≡ spec.is_recursion number name (node head (trees_of (view_trees kids.now))) }
{
    let fits = is_choice(head);
    if !fits {
        return false;
    }
    if kids.len() != 3 {
        return false;
    }
    are_parts(number, name, &kids[0], &kids[1], &kids[2])
}

/// Whether a body has the form `n <= c ? base : step` of the function with a number, by the parameter with a name.
#[tactic(auto, using(crate::proofs::Forms::choice_whole))]
pub fn is_recursion(tree: &Tree, number: u32, name: usize) -> bool
    ensures { result ≡ spec.is_recursion number name (view_tree tree.now) }
{
    is_recursion_at(number, name, tree.head, tree.kids.as_slice())
}
