// Bodies of logic functions (ACSL 2.6.3).
ghost use Rattle.std.specs.Prelude.{◌≡◌, map, IfOk, option_map};
ghost use Rattle.acsl_encode.specs.Encode.{as_integer};
ghost use Rattle.acsl_trees.specs.Tree.{trees_of, view_tree, view_trees};
ghost use Rattle.annotation_heads.specs.View.{view_terms};
ghost use Rattle.logic_bodies.specs.Bodies as spec;
ghost use Rattle.logic_bodies.specs.View.{names_in, reading_in};
ghost use Rattle.qed_terms.specs.View.{term_tree};

use crate::heads::body_node;
use crate::readings::BodyReading;
use acsl_trees::Tree;
use annotation_heads::Terms;
use qed_terms::Term;
use std::alloc::Global;
use wp_base::{List, NoMemory};

#[cycle(bodies)]
#[tactic(auto, using(crate::proofs::Bodies_made::node_made))]
fn body_terms(tree: &Tree, alloc: Global, reading: BodyReading) -> Result<Terms, NoMemory>
    ensures { IfOk result (λ made. view_terms made ≡ spec.body_terms (reading_in reading.entry) (names_in reading.entry) (view_tree tree.now)) }
{
    let kids = tree.kids.as_slice();
    let made = all_terms(kids, alloc, reading)?;
    let terms = body_node(alloc, reading, tree.head, kids, made)?;
    Ok(terms)
}

#[cycle(bodies)]
#[tactic(auto, using(crate::proofs::Bodies_made::kid_laws))]
fn all_terms(kids: &[Tree], alloc: Global, reading: BodyReading) -> Result<List<Terms>, NoMemory>
    ensures { IfOk result (λ made. map view_terms made ≡ spec.all_terms (reading_in reading.entry) (names_in reading.entry) (trees_of (view_trees kids.now))) }
{
    let mut made = List::new(alloc);
    for at in 0..kids.len() {
        made.push(body_terms(&kids[at], alloc, reading)?)?;
    }
    Ok(made)
}

/// The term of a body that is over plain integers and binds no names, where it is in order.
pub fn body_term(alloc: Global, reading: BodyReading, tree: &Tree) -> Result<Option<Term>, NoMemory>
    ensures { IfOk result (λ term. option_map term_tree term ≡ as_integer (spec.body_terms (reading_in reading.entry) (names_in reading.entry) (view_tree tree.now))) }
{
    let terms = body_terms(tree, alloc, reading)?;
    terms.into_integer(alloc)
}
