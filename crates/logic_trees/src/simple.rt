// Bodies over plain integers that bind no names (ACSL 2.2).
ghost use Rattle.std.specs.Prelude.{◌≡◌};
ghost use Rattle.acsl_trees.specs.Tree.{trees_of, view_trees};
ghost use Rattle.c_runs.specs.Truth.{heads_of};
ghost use Rattle.logic_order.specs.Simple as spec;

use crate::heads::first_global;
use acsl_trees::{Content, Head, Label, Tree};

#[tactic(auto, using(crate::proofs::Kids::file_laws))]
fn is_of_file(kids: &[Tree]) -> bool
    ensures { result ≡ spec.is_of_file (heads_of (trees_of (view_trees kids.now))) }
{
    match first_global(kids) {
        Some(_) => true,
        None => false,
    }
}

fn reads_plainly(content: Content, label: Option<Label>, kids: &[Tree]) -> bool
    ensures { result ≡ spec.reads_plainly content label (heads_of (trees_of (view_trees kids.now))) }
{
    match content {
        Content::Integer(_) => match label {
            None => is_of_file(kids),
            Some(_) => false,
        },
        Content::Pointer => false,
        Content::Struct(_) => false,
    }
}

pub(crate) fn node_is_simple(head: Head, kids: &[Tree]) -> bool
    ensures { result ≡ spec.node_is_simple head (heads_of (trees_of (view_trees kids.now))) }
{
    match head {
        Head::Read { content, label } => reads_plainly(content, label, kids),
        Head::Number(_)
        | Head::Name(_)
        | Head::Call(_)
        | Head::Negate
        | Head::Complement
        | Head::Arithmetic(_)
        | Head::Convert(_)
        | Head::Compare(_)
        | Head::Not
        | Head::And
        | Head::Or
        | Head::Xor
        | Head::Implies
        | Head::Iff
        | Head::Choose
        | Head::Link(_)
        | Head::Chain => true,
        _ => false,
    }
}
