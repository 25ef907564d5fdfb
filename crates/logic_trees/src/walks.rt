// Walks over bodies.
ghost use Rattle.std.specs.Prelude.{◌≡◌};
ghost use Rattle.acsl_encode.specs.Told as told;
ghost use Rattle.acsl_trees.specs.Tree.{trees_of, view_tree, view_trees};
ghost use Rattle.c_runs.specs.Recursion as recursion;
ghost use Rattle.logic_order.specs.Simple as simple;
ghost use Rattle.logic_trees.specs.Asking.{asks, told_in};
ghost use Rattle.logic_trees.specs.Every as spec;

use crate::heads::{is_own, is_plain, is_read};
use crate::questions::{Asked, node_reads};
use crate::recursion::steps_down;
use crate::simple::node_is_simple;
use acsl_trees::{Head, Tree};

/// What each node is to be: simple; no call of a function; a call of it at most with its last argument one less; or no reading of what is asked of, where so
/// many variables are those of the file and these functions read it.
#[derive(Clone, Copy)]
pub(crate) enum Test<'a> {
    Simple,
    Apart(u32),
    Down(u32, usize),
    Unread(usize, Asked, &'a [bool]),
}

fn passes(test: Test, head: Head, kids: &[Tree]) -> bool
    ensures { result ≡ spec.passes test.entry head (trees_of (view_trees kids.now)) }
{
    match test {
        Test::Simple => node_is_simple(head, kids),
        Test::Apart(number) => !is_own(number, head),
        Test::Down(number, name) => is_plain(head) && steps_down(number, name, head, kids),
        Test::Unread(globals, asked, calls) => !node_reads(globals, asked, calls, head, kids),
    }
}

// Whether nothing is asked below.
fn ends(test: Test, head: Head) -> bool
    ensures { result ≡ spec.ends test.entry head }
{
    match test {
        Test::Simple => is_read(head),
        Test::Apart(_) => false,
        Test::Down(_, _) => false,
        Test::Unread(_, _, _) => false,
    }
}

#[cycle(every)]
#[tactic(auto, using(crate::proofs::Walking::tree_laws))]
fn every(tree: &Tree, test: Test) -> bool
    ensures { result ≡ spec.every (spec.passes test.entry) (spec.ends test.entry) (view_tree tree.now) }
{
    let kids = tree.kids.as_slice();
    let fits = passes(test, tree.head, kids);
    if !fits {
        return false;
    }
    let last = ends(test, tree.head);
    if last {
        return true;
    }
    all_every(kids, test)
}

#[cycle(every)]
#[tactic(auto, using(crate::proofs::Walking::kid_laws))]
fn all_every(kids: &[Tree], test: Test) -> bool
    ensures { result ≡ spec.all_every (spec.passes test.entry) (spec.ends test.entry) (trees_of (view_trees kids.now)) }
{
    for at in 0..kids.len() {
        if !every(&kids[at], test) {
            return false;
        }
    }
    true
}

/// Whether a body is over plain integers, binds no names, stands under no labels, and reads variables of the file themselves.
#[tactic(auto, using(crate::proofs::Walking::simple_is))]
pub fn is_simple(tree: &Tree) -> bool
    ensures { result ≡ simple.is_simple (view_tree tree.now) }
{
    every(tree, Test::Simple)
}

/// Whether a body calls the function with a number nowhere.
#[tactic(auto, using(crate::proofs::Walking::never_is))]
pub(crate) fn never_calls(tree: &Tree, number: u32) -> bool
    ensures { result ≡ recursion.never_calls number (view_tree tree.now) }
{
    every(tree, Test::Apart(number))
}

/// Whether the last argument of each call of the function with a number is one less than this name.
#[tactic(auto, using(crate::proofs::Walking::down_is))]
pub(crate) fn goes_down(tree: &Tree, number: u32, name: usize) -> bool
    ensures { result ≡ recursion.goes_down number name (view_tree tree.now) }
{
    every(tree, Test::Down(number, name))
}

/// Whether a body reads what is asked of, itself or through the functions that it calls, of which these do. There are so many variables of the file.
#[tactic(auto, using(crate::proofs::Walking::reads_is))]
pub fn reads(tree: &Tree, globals: usize, asked: Asked, calls: &[bool]) -> bool
    ensures { result ≡ told.reads (asks globals asked) (told_in calls.now) (view_tree tree.now) }
{
    !every(tree, Test::Unread(globals, asked, calls))
}
