// What the turns of a loop change, as changes of slots at its head (ACSL 2.4.2).
ghost use Rattle.std.specs.Prelude.{◌≡◌, ◌<◌, ◌++◌, ℕ, Bool, List, length, map, IfOk, OnOk};
ghost use Rattle.checked_trees.specs.View.{view_steps};
ghost use Rattle.c_runs.specs.Program.{Contract, Facts as PlainFacts};
ghost use Rattle.core_trees.specs.View.{view_loop, view_variable, view_variables};
ghost use Rattle.loop_walks.specs.Parts.{changes_from, flag_change_if};
ghost use Rattle.loop_words.specs.Sets as sets;
ghost use Rattle.loop_words.specs.Words as spec;
ghost use Rattle.plain_states.specs.Scopes.{kind_of as kind_in};
ghost use Rattle.program_steps.specs.Words as words;
ghost use Rattle.program_trees.specs.View.{view_facts};
ghost use Rattle.walk_frames.specs.View.{facts_in, shape_in};
ghost use Rattle.walk_live.specs.Bits.{bits};
ghost use Rattle.walk_words.specs.View.{view_change};
ghost use Rattle.wp_base.specs.declared.kinds.Kind as kinds;

use crate::marks::set_in;
use crate::sets::local_changes;
use c_kinds::range;
use checked_trees::Step;
use core_trees::{FunctionVariable, Loop};
use program_trees::Facts;
use std::alloc::Global;
use walk_frames::Frame;
use walk_words::Change;
use wp_base::{CellKind, Kind, NoMemory};

/// The number of a variable.
pub(crate) fn number_of(at: usize) -> Result<u32, NoMemory>
    ensures { IfOk result (λ number. number ≡ at) }
{
    match u32::try_from(at) {
        Ok(number) => Ok(number),
        Err(_) => Err(NoMemory),
    }
}

/// A bit of a set.
pub(crate) fn is_in(set: &[bool], at: usize) -> bool
    ensures { (c : ℕ) (f : ℕ → Bool) → set.now ≡ bits c f → at < c → result ≡ f at }
{
    if at < set.len() { set[at] } else { false }
}

fn kind_of(variable: &FunctionVariable) -> Kind
    ensures { result ≡ kind_in (view_variable variable.now) }
{
    match variable.layout.cells.get(0) {
        Some(CellKind::Of(kind)) => *kind,
        Some(CellKind::Ptr) => Kind::Int,
        None => Kind::Int,
    }
}

fn value_change(facts: &Facts, changes: bool, kind: Kind) -> Change
    ensures { view_change result ≡ spec.value_change (view_facts facts.now) changes kind }
{
    if !changes {
        return Change::Keeps;
    }
    let range = range(facts.model, kind);
    Change::Ranged(range.low, range.high)
}

fn flag_change(has_flags: bool, changes: bool) -> Change
    ensures { (p : PlainFacts) → view_change result ≡ flag_change_if p has_flags changes }
{
    if has_flags && changes {
        Change::Raised
    } else {
        Change::Keeps
    }
}

// The slots of variables; those of the file are set all the time.
fn add_changes(
    facts: &Facts,
    has_flags: bool,
    variables: &[FunctionVariable],
    changing: &[bool],
    made: &mut Vec<Change>,
) -> Result<(), NoMemory>
    ensures { (f : ℕ → Bool) → changing.now ≡ bits (length (view_variables variables.now)) f → OnOk result (map view_change made.new.items ≡ map view_change made.old.items ++ changes_from (view_facts facts.now) has_flags f 0 (view_variables variables.now)) }
{
    for at in 0..variables.len() {
        let changes = is_in(changing, at);
        let kind = kind_of(&variables[at]);
        made.push(value_change(facts, changes, kind))?;
        made.push(flag_change(has_flags, changes))?;
    }
    Ok(())
}

/// How the slots change at the head of a turn; `changing` tells which variables of the file do.
pub(crate) fn head_changes<'a>(
    alloc: Global,
    frame: Frame<'a>,
    l: &Loop,
    body: &[Step<'a>],
    changing: &[bool],
) -> Result<Vec<Change>, NoMemory>
    ensures { (k : ℕ → kinds.Kind) (c : Contract) (pt : words.Point) → changing.now ≡ bits (length (facts_in frame.entry).globals) (sets.file_changes c pt (view_loop l.now)) → IfOk result (λ made. map view_change made.items ≡ spec.head_changes (facts_in frame.entry) (shape_in frame.entry k) c pt (view_loop l.now) (view_steps body.now)) }
{
    let variables = frame.variables.as_slice();
    let text = set_in(alloc, body, variables.len())?;
    let own = local_changes(alloc, l, text.as_slice())?;
    let mut made = Vec::new(alloc);
    add_changes(
        frame.facts,
        false,
        frame.facts.globals.as_slice(),
        changing,
        &mut made,
    )?;
    add_changes(frame.facts, true, variables, own.as_slice(), &mut made)?;
    Ok(made)
}
