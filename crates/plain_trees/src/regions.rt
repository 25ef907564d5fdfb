// Whether what may be changed is a set of variables (ACSL 2.3.4).
ghost use Rattle.std.specs.Prelude.{◌≡◌, ◌&&◌};
ghost use Rattle.std.specs.List.{list_all};
ghost use Rattle.std.specs.Option.{option_map};
ghost use Rattle.acsl_trees.specs.Tree.{view_tree, view_trees};
ghost use Rattle.core_trees.specs.View.{view_variables};
ghost use Rattle.plain_annotations.specs.Clauses as spec;
ghost use Rattle.plain_annotations.specs.Places as places;
ghost use Rattle.plain_trees.specs.View as view;
ghost use Rattle.program_trees.specs.View.{view_facts};

use crate::claims::place_of;
use crate::nodes::{Place, names_known};
use crate::roles::role_of;
use acsl_trees::{Content, Head, Tree};
use core_trees::FunctionVariable;
use program_trees::Facts;
use wp_base::List;

fn is_integer(content: Content) -> bool
    ensures { result ≡ view.is_integer content }
{
    match content {
        Content::Integer(_) => true,
        Content::Pointer => false,
        Content::Struct(_) => false,
    }
}

// A set of integers.
fn is_integers(head: Head) -> bool
    ensures { result ≡ view.is_integers head }
{
    match head {
        Head::Region(content) => is_integer(content),
        Head::Number(_)
        | Head::Null
        | Head::Name(_)
        | Head::Call(_)
        | Head::Result
        | Head::At(_)
        | Head::Variable(_)
        | Head::Pointed
        | Head::Field { .. }
        | Head::Element { .. }
        | Head::Elements { .. }
        | Head::Behind { .. }
        | Head::Read { .. }
        | Head::Address
        | Head::Moved { .. }
        | Head::Difference { .. }
        | Head::Negate
        | Head::Complement
        | Head::Arithmetic(_)
        | Head::Convert(_)
        | Head::Compare(_)
        | Head::ComparePointers(_)
        | Head::Not
        | Head::And
        | Head::Or
        | Head::Xor
        | Head::Implies
        | Head::Iff
        | Head::Choose
        | Head::Chain
        | Head::Link(_)
        | Head::LinkPointers(_)
        | Head::Let
        | Head::Every(_)
        | Head::Some(_)
        | Head::Valid { .. }
        | Head::Separated => false,
    }
}

// A tree is a variable that may be named, with nothing below it.
fn is_alone(place: Place, tree: &Tree) -> bool
    ensures { result ≡ view.is_alone (view.is_below place.globals place.own) (view_tree tree.now) }
{
    if tree.kids.len() != 0 {
        return false;
    }
    names_known(place, role_of(tree.head))
}

// The one kid.
fn has_one(place: Place, kids: &[Tree]) -> bool
    ensures { result ≡ view.has_one (view.is_below place.globals place.own) (view_trees kids.now) }
{
    if kids.len() != 1 {
        return false;
    }
    is_alone(place, &kids[0])
}

fn is_region(facts: &Facts, own: &[FunctionVariable], tree: &Tree) -> bool
    ensures { result ≡ spec.is_region (view_facts facts.now) (view_variables own.now) (view_tree tree.now) }
{
    if !is_integers(tree.head) {
        return false;
    }
    has_one(place_of(facts, own, false), tree.kids.as_slice())
}

fn are_regions(facts: &Facts, own: &[FunctionVariable], trees: &[Tree]) -> bool
    ensures { result ≡ list_all (spec.is_region (view_facts facts.now) (view_variables own.now)) (view_trees trees.now) }
{
    for at in 0..trees.len() {
        let fits = is_region(facts, own, &trees[at]);
        if !fits {
            return false;
        }
    }
    true
}

/// A set of variables of the file and of these, if it is given.
pub(crate) fn is_set(facts: &Facts, own: &[FunctionVariable], set: &Option<List<Tree>>) -> bool
    ensures { result ≡ spec.is_set (view_facts facts.now) (view_variables own.now) (option_map view_trees set.now) }
{
    match set {
        None => true,
        Some(trees) => are_regions(facts, own, trees.as_slice()),
    }
}
