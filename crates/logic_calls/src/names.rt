// How a file spells its logic functions with their parameters, and its variables.
ghost use Rattle.std.specs.Prelude.{◌≡◌, drop, map, not, ◌==◌};
ghost use Rattle.std.specs.List.{list_all, list_any};
ghost use Rattle.std.specs.Str.{bytes_eq};
ghost use Rattle.acsl_encode.specs.Binders.{mark};
ghost use Rattle.logic_calls.specs.View.{view_spelling};
ghost use Rattle.logic_order.specs.Names as spec;
ghost use Rattle.qed_terms.specs.Setting.{all_differ};

use annotation_words::Named;
use wp_base::{List, Str};

/// A logic function's name, and those of its parameters.
#[derive(Drop)]
pub struct Spelling {
    pub name: Str,
    pub params: List<Named>,
}

/// Logic functions and variables of a file, by their numbers.
#[derive(Drop)]
pub struct FileNames {
    pub functions: List<Spelling>,
    pub variables: List<Str>,
}

/// Whether a name is without the mark that names of binders have.
pub(crate) fn is_unmarked(name: &[u8]) -> bool
    ensures { result ≡ spec.is_unmarked name.now }
{
    name.iter().all(|byte| *byte != b'!')
}

// Whether one of the functions from a place on has this name.
#[tactic(auto, using(crate::proofs::Passing::any_laws))]
fn is_named(functions: &[Spelling], from: usize, name: &[u8]) -> bool
    ensures { result ≡ list_any (bytes_eq name.now) (map spec.name_in (map view_spelling (drop from functions.now))) }
{
    for at in from..functions.len() {
        if name == functions[at].name.bytes() {
            return true;
        }
    }
    false
}

#[tactic(auto, using(crate::proofs::Passing::all_laws))]
fn are_unmarked(functions: &[Spelling]) -> bool
    ensures { result ≡ list_all spec.is_unmarked (map spec.name_in (map view_spelling functions.now)) }
{
    for at in 0..functions.len() {
        if !is_unmarked(functions[at].name.bytes()) {
            return false;
        }
    }
    true
}

#[tactic(auto, using(crate::proofs::Passing::differ_laws))]
fn differ(functions: &[Spelling]) -> bool
    ensures { result ≡ all_differ bytes_eq (map spec.name_in (map view_spelling functions.now)) }
{
    for at in 0..functions.len() {
        if is_named(functions, at + 1, functions[at].name.bytes()) {
            return false;
        }
    }
    true
}

/// Whether names of logic functions have no mark, and no two are the same.
pub fn are_apart(functions: &[Spelling]) -> bool
    ensures { result ≡ spec.are_apart (map view_spelling functions.now) }
{
    are_unmarked(functions) && differ(functions)
}
