// The base and the step of a logic function (ACSL 2.6.3).
ghost use Rattle.std.specs.Prelude.{◌≡◌, ◌++◌, ◌∷◌, [], Some, true, IfOk, map, option_map};
ghost use Rattle.acsl_encode.specs.Setting as spec;
ghost use Rattle.acsl_trees.specs.Tree.{view_tree};
ghost use Rattle.c_runs.specs.Truth as truth;
ghost use Rattle.annotation_words.specs.View.{called_in, view_called};
ghost use Rattle.logic_order.specs.Simple as simple;
ghost use Rattle.logic_settings.specs.Growing as growing;
ghost use Rattle.plain_annotations.specs.Settings.{shared};
ghost use Rattle.program_trees.specs.View.{view_facts};
ghost use Rattle.qed_terms.specs.View.{term_tree};

use acsl_trees::{Head, Tree};
use annotation_words::Called;
use logic_bodies::{BodyReading, body_term};
use logic_calls::copy_called;
use program_trees::Facts;
use qed_terms::Term;
use std::alloc::Global;
use wp_base::NoMemory;

/// The term of a part of a body, where it is in order.
pub(crate) fn part_term(
    alloc: Global,
    facts: &Facts,
    called: &Called,
    known: &[Option<Called>],
    body: &Tree,
    at: usize,
) -> Result<Option<Term>, NoMemory>
    requires none { called.now.memories ≡ [] }
    requires simple { simple.is_simple (truth.kid (view_tree body.now) at) ≡ true }
    ensures { IfOk result (λ term. option_map term_tree term ≡ spec.body_term (shared (view_facts facts.now)) (called_in known.now) (view_called called.now) (truth.kid (view_tree body.now) at)) }
{
    let kids = body.kids.as_slice();
    if at >= kids.len() {
        return Ok(Some(Term::number(0)));
    }
    let reading = BodyReading {
        facts,
        params: called.params.as_slice(),
        globals: called.globals.as_slice(),
        called: known,
    };
    let term = body_term(alloc, reading, &kids[at])?;
    Ok(term)
}

/// The term of the step, where the function may call itself; it has the next number.
pub(crate) fn step_term(
    alloc: Global,
    facts: &Facts,
    called: &Called,
    known: &mut Vec<Option<Called>>,
    body: &Tree,
) -> Result<Option<Term>, NoMemory>
    requires none { called.now.memories ≡ [] }
    requires simple { simple.is_simple (truth.kid (view_tree body.now) 2) ≡ true }
    ensures { IfOk result (λ term. (known.new.items ≡ known.old.items) × (option_map term_tree term ≡ spec.body_term (shared (view_facts facts.now)) (called_in (known.old.items ++ Some called.now ∷ [])) (view_called called.now) (truth.kid (view_tree body.now) 2))) }
{
    known.push(Some(copy_called(alloc, called)?))?;
    let term = part_term(alloc, facts, called, known.as_slice(), body, 2)?;
    known.pop();
    Ok(term)
}

// ---- the number that the last argument is compared with

fn number_in(head: Head) -> i128
    ensures { result ≡ growing.number_of_head head }
{
    match head {
        Head::Number(value) => value,
        _ => 0,
    }
}

// The number that a part is.
#[tactic(auto, using(crate::proofs::Parting::spelled_laws))]
fn spelled_number(tree: &Tree, at: usize) -> i128
    ensures { result ≡ truth.spelled_number (truth.kid (view_tree tree.now) at) }
{
    let kids = tree.kids.as_slice();
    if at >= kids.len() {
        return 0;
    }
    number_in(kids[at].head)
}

/// The number that the last argument is compared with.
#[tactic(auto, using(crate::proofs::Parting::test_laws))]
pub(crate) fn test_number(body: &Tree) -> i128
    ensures { result ≡ truth.test_number (view_tree body.now) }
{
    let kids = body.kids.as_slice();
    if kids.len() == 0 {
        return 0;
    }
    spelled_number(&kids[0], 1)
}
