// Logic functions of a setting (ACSL 2.6.3).
ghost use Rattle.std.specs.Prelude.{◌≡◌, [], ℕ, Some, true, length, IfOk, OnOk, map, option_map};
ghost use Rattle.std.specs.List.{list_all};
ghost use Rattle.acsl_encode.specs.Encode.{on_two};
ghost use Rattle.acsl_encode.specs.Setting as spec;
ghost use Rattle.acsl_trees.specs.Tree.{view_tree};
ghost use Rattle.annotation_words.specs.View.{called_in, view_called, view_named};
ghost use Rattle.logic_order.specs.Order.{is_function};
ghost use Rattle.logic_settings.specs.Growing.{Grows};
ghost use Rattle.plain_annotations.specs.Places.{is_one};
ghost use Rattle.plain_annotations.specs.Settings.{shared};
ghost use Rattle.program_trees.specs.View.{view_facts};
ghost use Rattle.qed_terms.specs.View.{term_tree, view_logic};

use crate::parts::{part_term, step_term, test_number};
use acsl_trees::Tree;
use annotation_words::Called;
use logic_calls::params_in;
use program_trees::Facts;
use qed_terms::{LogicFn, Term};
use std::alloc::Global;
use wp_base::NoMemory;

// The place of the last parameter.
#[tactic(auto, using(crate::proofs::Parting::place_laws))]
fn number_place(called: &Called) -> Result<u32, NoMemory>
    requires { list_all is_one (map view_named called.now.params) ≡ true }
    ensures { IfOk result (λ place. place ≡ spec.number_place (view_called called.now)) }
{
    let place = called.params.as_slice().len().saturating_sub(1);
    match u32::try_from(place) {
        Ok(place) => Ok(place),
        Err(_) => Err(NoMemory),
    }
}

fn function_of(
    alloc: Global,
    called: &Called,
    cut: i128,
    base: Term,
    step: Term,
) -> Result<LogicFn, NoMemory>
    requires none { called.now.memories ≡ [] }
    requires ones { list_all is_one (map view_named called.now.params) ≡ true }
    ensures { IfOk result (λ made. view_logic made ≡ spec.function_of (view_called called.now) cut (term_tree base) (term_tree step)) }
{
    let name = called.name.copy(alloc)?;
    let params = params_in(alloc, called)?;
    let number = number_place(called)?;
    Ok(LogicFn {
        name,
        params,
        number,
        cut,
        base,
        step,
    })
}

// The function of these parts, where both are in order.
#[tactic(auto, using(crate::proofs::Parting::two_laws))]
fn made_of(
    alloc: Global,
    called: &Called,
    cut: i128,
    base: Option<Term>,
    step: Option<Term>,
) -> Result<Option<LogicFn>, NoMemory>
    requires none { called.now.memories ≡ [] }
    requires ones { list_all is_one (map view_named called.now.params) ≡ true }
    ensures { IfOk result (λ made. option_map view_logic made ≡ on_two (spec.function_of (view_called called.now) cut) (option_map term_tree base) (option_map term_tree step)) }
{
    let Some(base) = base else {
        return Ok(None);
    };
    let Some(step) = step else {
        return Ok(None);
    };
    let made = function_of(alloc, called, cut, base, step)?;
    Ok(Some(made))
}

// Puts what a function makes.
#[tactic(auto, using(crate::proofs::Growing_more::put_laws))]
fn put_made(
    called: Called,
    made: Option<LogicFn>,
    known: &mut Vec<Option<Called>>,
    logic: &mut Vec<LogicFn>,
) -> Result<(), NoMemory>
    ensures { OnOk result ((n : ℕ) → Grows n (view_called called) (option_map view_logic made) known.old.items known.new.items logic.old.items logic.new.items) }
{
    match made {
        Some(function) => {
            logic.push(function)?;
            known.push(Some(called))?;
            Ok(())
        }
        None => {
            known.push(None)?;
            Ok(())
        }
    }
}

/// Puts the function that a definition makes, which calls itself and has the next number.
pub(crate) fn put_function(
    alloc: Global,
    facts: &Facts,
    number: usize,
    called: Called,
    body: &Tree,
    known: &mut Vec<Option<Called>>,
    logic: &mut Vec<LogicFn>,
) -> Result<(), NoMemory>
    requires fits { is_function (view_facts facts.now) number (view_called called) (view_tree body.now) ≡ true }
    requires next { length known.old.items ≡ number }
    ensures { OnOk result (Grows number (view_called called) (spec.logic_of (shared (view_facts facts.now)) (called_in known.old.items) number (view_called called) (view_tree body.now)) known.old.items known.new.items logic.old.items logic.new.items) }
{
    let base = part_term(alloc, facts, &called, known.as_slice(), body, 1)?;
    let step = step_term(alloc, facts, &called, known, body)?;
    let made = made_of(alloc, &called, test_number(body), base, step)?;
    put_made(called, made, known, logic)?;
    Ok(())
}
