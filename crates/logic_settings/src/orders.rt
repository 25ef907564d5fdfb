// Files with logic functions that call themselves (ACSL 2.6.3).
ghost use Rattle.std.specs.Prelude.{◌≡◌, true, length, map, IfOk};
ghost use Rattle.acsl_expand.specs.Expansion.{view_all};
ghost use Rattle.annotation_words.specs.View.{view_global};
ghost use Rattle.c_kinds.specs.Models as models;
ghost use Rattle.logic_calls.specs.View.{view_names};
ghost use Rattle.logic_order.specs.Names as names_of;
ghost use Rattle.logic_order.specs.Order as spec;
ghost use Rattle.logic_settings.specs.Found.{Finds};
ghost use Rattle.logic_settings.specs.Growing.{HasFirst};
ghost use Rattle.plain_annotations.specs.Settings.{globals_from};
ghost use Rattle.program_trees.specs.View.{view_facts};

use crate::definitions::{Functions, functions_of};
use crate::forms::all_fit;
use crate::takes::takes_of;
use annotation_words::{Called, GlobalName};
use c_kinds::Machdep;
use logic_calls::{FileNames, are_apart, file_globals};
use program_trees::Facts;
use qed_terms::Setting;
use regular_settings::are_shaped;
use std::alloc::Global;
use wp_base::{List, NoMemory};

/// Of a file whose logic functions are in order: how those are called that call themselves, and how many integers each takes, by their numbers; and the
/// setting that they make.
#[derive(Drop)]
pub struct Order {
    pub called: List<Option<Called>>,
    pub takes: List<Option<usize>>,
    pub setting: Setting,
}

fn long_bits(model: Machdep) -> u8
    ensures { result ≡ models.long_bits model }
{
    match model {
        Machdep::X86_32 => 32,
        Machdep::X86_64 => 64,
    }
}

// With these functions, where they are as the setting of a prover asks.
fn order_with(alloc: Global, facts: &Facts, functions: Functions) -> Result<Option<Order>, NoMemory>
    ensures { (x : names_of.FileNames) → names_of.are_apart x.functions ≡ true → spec.all_fit (view_facts facts.now) x 0 (view_facts facts.now).definitions ≡ true → HasFirst (view_facts facts.now) x (length facts.now.definitions) functions.known.items functions.logic.items → IfOk result (λ found. Finds (view_facts facts.now) x found) }
{
    let Functions { known, logic } = functions;
    if !are_shaped(logic.as_slice()) {
        return Ok(None);
    }
    let takes = takes_of(alloc, facts, known.as_slice())?;
    Ok(Some(Order {
        called: List::from_vec(known),
        takes,
        setting: Setting {
            long_bits: long_bits(facts.model),
            logic: List::from_vec(logic),
        },
    }))
}

fn order_over(
    alloc: Global,
    facts: &Facts,
    names: &FileNames,
    globals: &[GlobalName],
) -> Result<Option<Order>, NoMemory>
    requires apart { names_of.are_apart (view_names names.now).functions ≡ true }
    requires globals_ { map view_global globals.now ≡ globals_from 0 (view_facts facts.now).globals names.now.variables }
    ensures { IfOk result (λ found. Finds (view_facts facts.now) (view_names names.now) found) }
{
    let fit = all_fit(alloc, facts, names, globals)?;
    if !fit {
        return Ok(None);
    }
    let functions = functions_of(alloc, facts, names, globals)?;
    let found = order_with(alloc, facts, functions)?;
    Ok(found)
}

/// Of a file whose logic functions are in order how they are called, and their setting; none where they aren't.
pub fn order_of(alloc: Global, facts: &Facts, names: &FileNames) -> Result<Option<Order>, NoMemory>
    ensures { IfOk result (λ found. Finds (view_facts facts.now) (view_names names.now) found) }
{
    let apart = are_apart(names.functions.as_slice());
    if !apart {
        return Ok(None);
    }
    let globals = file_globals(alloc, facts.globals.as_slice(), names.variables.as_slice())?;
    let found = order_over(alloc, facts, names, globals.as_slice())?;
    Ok(found)
}
