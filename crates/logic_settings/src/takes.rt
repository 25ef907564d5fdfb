// How many integers functions take (ACSL 2.6.3).
ghost use Rattle.std.specs.Prelude.{◌≡◌, Some, option_map, IfOk};
ghost use Rattle.annotation_words.specs.View.{view_called};
ghost use Rattle.logic_settings.specs.Found as spec;
ghost use Rattle.plain_annotations.specs.Places.{params_of};
ghost use Rattle.program_trees.specs.View.{view_facts};

use annotation_words::Called;
use logic_calls::takes_integers;
use program_trees::Facts;
use std::alloc::Global;
use wp_base::{List, NoMemory};

fn takes_so(facts: &Facts, called: &Called) -> Option<usize>
    ensures { result ≡ params_of (view_facts facts.now) (Some (view_called called.now)) }
{
    if takes_integers(facts, called) {
        Some(called.params.len())
    } else {
        None
    }
}

// Of a function, where it may be called.
fn takes_one(facts: &Facts, called: &Option<Called>) -> Option<usize>
    ensures { result ≡ params_of (view_facts facts.now) (option_map view_called called.now) }
{
    match called {
        Some(called) => takes_so(facts, called),
        None => None,
    }
}

/// How many integers each function takes that may be called.
#[tactic(auto, using(crate::proofs::Taking_all::takes_laws))]
pub(crate) fn takes_of(
    alloc: Global,
    facts: &Facts,
    known: &[Option<Called>],
) -> Result<List<Option<usize>>, NoMemory>
    ensures { IfOk result (λ made. made ≡ spec.takes_of (view_facts facts.now) known.now) }
{
    let mut made = List::new(alloc);
    for at in 0..known.len() {
        made.push(takes_one(facts, &known[at]))?;
    }
    Ok(made)
}
