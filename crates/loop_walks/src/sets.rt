// Which variables the turns of a loop change (ACSL 2.4.2).
ghost use Rattle.std.specs.Prelude.{◌≡◌, ◌<◌, ◌&&◌, ℕ, List, length, IfOk};
ghost use Rattle.c_runs.specs.Tree.{Steps};
ghost use Rattle.core_trees.specs.View.{view_loop};
ghost use Rattle.loop_words.specs.Sets as spec;
ghost use Rattle.plain_runs.specs.Kept.{some_sets};
ghost use Rattle.program_steps.specs.Temporaries.{Temporaries};
ghost use Rattle.program_trees.specs.View.{view_contract};
ghost use Rattle.walk_frames.specs.View.{facts_in, view_point};
ghost use Rattle.walk_live.specs.Bits.{bits};

use crate::changes::{is_in, number_of};
use core_trees::Loop;
use std::alloc::Global;
use typed_prog::Variable;
use walk_frames::{Force, Frame, Point, has_variable, lacks};
use wp_base::NoMemory;

// A variable of the file: the set in force inside of the loop names it.
#[tactic(auto, using(crate::proofs::Letting::own_named, crate::proofs::Letting::plain_named, crate::proofs::Letting::around_named))]
fn changes_file<'a>(frame: Frame<'a>, point: Point<'a>, l: &Loop, number: u32) -> bool
    ensures { (os : List Temporaries) → result ≡ spec.file_changes (view_contract frame.entry.contract.now) (view_point frame.entry os point.entry) (view_loop l.now) number }
{
    let variable = Variable::Global(number);
    match &l.assigns {
        Some(regions) => has_variable(regions.as_slice(), variable),
        None => match point.force {
            Force::OfFunction => !lacks(&frame.contract.plain.assigns, variable),
            Force::OfLoop(regions, _) => has_variable(regions.as_slice(), variable),
        },
    }
}

/// Of the variables of the file those that change.
pub(crate) fn file_changes<'a>(
    alloc: Global,
    frame: Frame<'a>,
    point: Point<'a>,
    l: &Loop,
) -> Result<Vec<bool>, NoMemory>
    ensures { (os : List Temporaries) → IfOk result (λ made. made.items ≡ bits (length (facts_in frame.entry).globals) (spec.file_changes (view_contract frame.entry.contract.now) (view_point frame.entry os point.entry) (view_loop l.now))) }
{
    let mut made = Vec::new(alloc);
    for at in 0..frame.facts.globals.len() {
        let number = number_of(at)?;
        let bit = changes_file(frame, point, l, number);
        made.push(bit)?;
    }
    Ok(made)
}

// A local: the loop's set names it, or, where it has none, its text sets it.
#[tactic(auto, using(crate::proofs::Letting::own_let, crate::proofs::Letting::text_let))]
fn lets_local(l: &Loop, text: &[bool], number: u32) -> bool
    ensures { (c : ℕ) (ss : Steps) → text.now ≡ bits c (some_sets ss) → number < c → result ≡ spec.lets_local (view_loop l.now) ss number }
{
    match &l.assigns {
        Some(regions) => has_variable(regions.as_slice(), Variable::Local(number)),
        None => is_in(text, number as usize),
    }
}

fn is_both(first: bool, second: bool) -> bool
    ensures { result ≡ (first && second) }
{
    first && second
}

// One that is declared before the loop.
fn changes_local(l: &Loop, text: &[bool], number: u32) -> bool
    ensures { (c : ℕ) (ss : Steps) → text.now ≡ bits c (some_sets ss) → number < c → result ≡ spec.local_changes (view_loop l.now) ss number }
{
    let is_before = number < l.declared;
    is_both(is_before, lets_local(l, text, number))
}

/// Of the variables of the function those that change; `text` tells which ones its text sets.
pub(crate) fn local_changes<'a>(
    alloc: Global,
    l: &Loop,
    text: &[bool],
) -> Result<Vec<bool>, NoMemory>
    ensures { (c : ℕ) (ss : Steps) → text.now ≡ bits c (some_sets ss) → IfOk result (λ made. made.items ≡ bits c (spec.local_changes (view_loop l.now) ss)) }
{
    let mut made = Vec::new(alloc);
    for at in 0..text.len() {
        let number = number_of(at)?;
        let bit = changes_local(l, text, number);
        made.push(bit)?;
    }
    Ok(made)
}
