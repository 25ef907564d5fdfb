// Nodes of bodies over what their kids come to.
ghost use Rattle.std.specs.Prelude.{◌≡◌, map, IfOk};
ghost use Rattle.acsl_trees.specs.Tree.{trees_of, view_trees};
ghost use Rattle.c_runs.specs.Truth.{heads_of};
ghost use Rattle.annotation_heads.specs.View.{view_terms};
ghost use Rattle.logic_bodies.specs.Bodies as spec;
ghost use Rattle.logic_bodies.specs.View.{names_in, reading_in};
ghost use Rattle.logic_trees.specs.Heads as heads;

use crate::calls::called;
use crate::readings::BodyReading;
use crate::variables::{named, read_by};
use acsl_trees::{Head, Tree};
use annotation_heads::{
    Joint, Terms, calculated, chain, changed, chosen, compared, converted, first_kid, joined,
    negated,
};
use qed_terms::{Term, TermOp};
use std::alloc::Global;
use typed_prog::Variable;
use wp_base::{List, NoMemory};

fn global_in(head: Head) -> Option<u32>
    ensures { result ≡ heads.global_in head }
{
    match head {
        Head::Variable(variable) => match variable {
            Variable::Global(number) => Some(number),
            Variable::Local(_) => None,
        },
        _ => None,
    }
}

// The variable of the file that the first kid is.
#[tactic(auto, using(logic_trees::proofs::Kids::first_laws))]
fn first_global(kids: &[Tree]) -> Option<u32>
    ensures { result ≡ heads.first_global (heads_of (trees_of (view_trees kids.now))) }
{
    if kids.len() == 0 {
        return None;
    }
    global_in(kids[0].head)
}

/// What is made of what the kids come to.
pub(crate) fn body_node(
    alloc: Global,
    reading: BodyReading,
    head: Head,
    links: &[Tree],
    kids: List<Terms>,
) -> Result<Terms, NoMemory>
    ensures { IfOk result (λ made. view_terms made ≡ spec.body_node (reading_in reading.entry) (names_in reading.entry) head (heads_of (trees_of (view_trees links.now))) (map view_terms kids)) }
{
    match head {
        Head::Name(name) => named(alloc, reading.params, name),
        Head::Call(function) => called(alloc, reading, function, &kids),
        Head::Read { content, label: _ } => read_by(alloc, reading, content, first_global(links)),
        Head::Chain => chain(alloc, links, &kids),
        Head::Number(value) => Ok(Terms::Integer(None, Term::number(value))),
        Head::Negate => changed(alloc, TermOp::Neg, kids),
        Head::Complement => changed(alloc, TermOp::BitNot, kids),
        Head::Arithmetic(op) => calculated(alloc, op, kids),
        Head::Convert(kind) => converted(alloc, reading.facts.model, kind, kids),
        Head::Compare(how) => compared(alloc, how, kids),
        Head::Not => negated(alloc, kids),
        Head::And => joined(alloc, Joint::And, kids),
        Head::Or => joined(alloc, Joint::Or, kids),
        Head::Xor => joined(alloc, Joint::Xor, kids),
        Head::Implies => joined(alloc, Joint::Implies, kids),
        Head::Iff => joined(alloc, Joint::Iff, kids),
        Head::Choose => chosen(alloc, kids),
        Head::Link(_) => Ok(first_kid(kids)),
        Head::Null
        | Head::Result
        | Head::At(_)
        | Head::Variable(_)
        | Head::Pointed
        | Head::Field { .. }
        | Head::Element { .. }
        | Head::Elements { .. }
        | Head::Behind { .. }
        | Head::Address
        | Head::Moved { .. }
        | Head::Difference { .. }
        | Head::ComparePointers(_)
        | Head::LinkPointers(_)
        | Head::Let
        | Head::Every(_)
        | Head::Some(_)
        | Head::Valid { .. }
        | Head::Separated
        | Head::Region(_) => Ok(Terms::Nothing),
    }
}
