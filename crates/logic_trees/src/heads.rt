// What is looked at in a node.
ghost use Rattle.std.specs.Prelude.{◌≡◌};
ghost use Rattle.acsl_trees.specs.Tree.{trees_of, view_trees};
ghost use Rattle.c_runs.specs.Recursion as recursion;
ghost use Rattle.c_runs.specs.Truth.{heads_of};
ghost use Rattle.logic_trees.specs.Heads as spec;
ghost use Rattle.plain_annotations.specs.Plain as plain;
ghost use Rattle.qed_terms.specs.Operators.{is_equal as equal};

use acsl_trees::{Head, Tree};
use typed_prog::{Arithmetic, Comparison, Variable};

pub(crate) fn name_in(head: Head) -> Option<u32>
    ensures { result ≡ spec.name_in head }
{
    match head {
        Head::Name(name) => Some(name),
        _ => None,
    }
}

pub(crate) fn number_in(head: Head) -> Option<i128>
    ensures { result ≡ spec.number_in head }
{
    match head {
        Head::Number(value) => Some(value),
        _ => None,
    }
}

// The variable of the file.
fn global_in(head: Head) -> Option<u32>
    ensures { result ≡ spec.global_in head }
{
    match head {
        Head::Variable(variable) => match variable {
            Variable::Global(number) => Some(number),
            Variable::Local(_) => None,
        },
        _ => None,
    }
}

/// The variable of the file that the first kid is.
#[tactic(auto, using(crate::proofs::Kids::first_laws))]
pub(crate) fn first_global(kids: &[Tree]) -> Option<u32>
    ensures { result ≡ spec.first_global (heads_of (trees_of (view_trees kids.now))) }
{
    if kids.len() == 0 {
        return None;
    }
    global_in(kids[0].head)
}

pub(crate) fn is_read(head: Head) -> bool
    ensures { result ≡ plain.is_read head }
{
    match head {
        Head::Read { .. } => true,
        _ => false,
    }
}

/// Whether this is a call of the function with a number.
pub(crate) fn is_own(number: u32, head: Head) -> bool
    ensures { result ≡ recursion.is_own number head }
{
    match head {
        Head::Call(function) => function == number,
        _ => false,
    }
}

/// Whether kids are read in the state and under the names of the node.
pub(crate) fn is_plain(head: Head) -> bool
    ensures { result ≡ recursion.is_plain head }
{
    match head {
        Head::At(_) => false,
        Head::Let => false,
        Head::Every(_) => false,
        Head::Some(_) => false,
        _ => true,
    }
}

pub(crate) fn is_subtraction(head: Head) -> bool
    ensures { result ≡ spec.is_subtraction head }
{
    match head {
        Head::Arithmetic(op) => match op {
            Arithmetic::Sub => true,
            _ => false,
        },
        _ => false,
    }
}

pub(crate) fn is_choice(head: Head) -> bool
    ensures { result ≡ spec.is_choice head }
{
    match head {
        Head::Choose => true,
        _ => false,
    }
}

pub(crate) fn is_at_most(head: Head) -> bool
    ensures { result ≡ spec.is_at_most head }
{
    match head {
        Head::Compare(how) => match how {
            Comparison::AtMost => true,
            _ => false,
        },
        _ => false,
    }
}

// ---- names and numbers

pub(crate) fn is_name(name: usize, found: Option<u32>) -> bool
    ensures { result ≡ spec.is_name name found }
{
    match found {
        Some(found) => found as usize == name,
        None => false,
    }
}

fn is_equal(left: i128, right: i128) -> bool
    ensures { result ≡ equal left right }
{
    left == right
}

#[tactic(auto, using(crate::proofs::Kids::one_is))]
fn is_one(number: i128) -> bool
    ensures { result ≡ recursion.is_one number }
{
    is_equal(number, 1)
}

pub(crate) fn is_one_of(found: Option<i128>) -> bool
    ensures { result ≡ spec.is_one_of found }
{
    match found {
        Some(number) => is_one(number),
        None => false,
    }
}
