// The definitions of a file, one after another (ACSL 2.6.3).
ghost use Rattle.std.specs.Prelude.{◌≡◌, ◌<◌, ℕ, None, true, length, map, IfOk, OnOk};
ghost use Rattle.acsl_encode.specs.Readings as readings;
ghost use Rattle.acsl_expand.specs.Expansion.{view_all};
ghost use Rattle.annotation_words.specs.View.{called_in, view_global};
ghost use Rattle.logic_calls.specs.View.{view_names};
ghost use Rattle.logic_order.specs.Order as order;
ghost use Rattle.logic_settings.specs.Growing.{Grows, HasFirst, logic_at_place};
ghost use Rattle.plain_annotations.specs.Settings.{globals_from};
ghost use Rattle.program_trees.specs.View.{view_facts};

use crate::functions::put_function;
use annotation_words::{Called, GlobalName};
use logic_calls::{FileNames, told};
use program_trees::Facts;
use qed_terms::LogicFn;
use std::alloc::Global;
use wp_base::NoMemory;

/// Which functions may be called, by their numbers, and the functions of the setting.
#[derive(Drop)]
pub(crate) struct Functions {
    pub known: Vec<Option<Called>>,
    pub logic: Vec<LogicFn>,
}

// One that is expanded in place.
#[tactic(auto, using(crate::proofs::Growing_more::none_put))]
fn put_none(known: &mut Vec<Option<Called>>, logic: &mut Vec<LogicFn>) -> Result<(), NoMemory>
    ensures { (n : ℕ) (c : readings.Called) → OnOk result (Grows n c None known.old.items known.new.items logic.old.items logic.new.items) }
{
    known.push(None)?;
    Ok(())
}

// The definition with the next number.
fn put_definition(
    alloc: Global,
    facts: &Facts,
    names: &FileNames,
    globals: &[GlobalName],
    number: usize,
    known: &mut Vec<Option<Called>>,
    logic: &mut Vec<LogicFn>,
) -> Result<(), NoMemory>
    requires inside { number < length facts.now.definitions }
    requires globals_ { map view_global globals.now ≡ globals_from 0 (view_facts facts.now).globals names.now.variables }
    requires fit { order.all_fit (view_facts facts.now) (view_names names.now) 0 (view_all facts.now.definitions) ≡ true }
    requires next { length known.old.items ≡ number }
    ensures { OnOk result (Grows number (order.told_as (view_facts facts.now) (view_names names.now) number) (logic_at_place (view_facts facts.now) (view_names names.now) (called_in known.old.items) number) known.old.items known.new.items logic.old.items logic.new.items) }
{
    let meant = &facts.definitions.as_slice()[number];
    if !meant.is_recursive {
        put_none(known, logic)?;
        return Ok(());
    }
    match told(alloc, facts, names, globals, number)? {
        Some(called) => {
            put_function(alloc, facts, number, called, &meant.body, known, logic)?;
            Ok(())
        }
        None => unreachable!(),
    }
}

/// The functions of a file whose definitions are in form.
pub(crate) fn functions_of(
    alloc: Global,
    facts: &Facts,
    names: &FileNames,
    globals: &[GlobalName],
) -> Result<Functions, NoMemory>
    requires globals_ { map view_global globals.now ≡ globals_from 0 (view_facts facts.now).globals names.now.variables }
    requires fit { order.all_fit (view_facts facts.now) (view_names names.now) 0 (view_all facts.now.definitions) ≡ true }
    ensures { IfOk result (λ made. HasFirst (view_facts facts.now) (view_names names.now) (length facts.now.definitions) made.known.items made.logic.items) }
{
    let mut known = Vec::new(alloc);
    let mut logic = Vec::new(alloc);
    for at in 0..facts.definitions.len() {
        put_definition(alloc, facts, names, globals, at, &mut known, &mut logic)?;
    }
    Ok(Functions { known, logic })
}
