// What the slots of a function have where it is entered.
ghost use Rattle.std.specs.Prelude.{◌≡◌, ◌∷◌, [], ◌++◌, ℕ, List, map, IfOk, OnOk};
ghost use Rattle.core_trees.specs.View.{view_variables};
ghost use Rattle.function_walks.specs.Entry.{view_origin, view_origins};
ghost use Rattle.program_steps.specs.Starting as spec;
ghost use Rattle.program_steps.specs.Terms.{Texts};
ghost use Rattle.qed_terms.specs.Meaning as sense;
ghost use Rattle.qed_terms.specs.View.{term_tree};
ghost use Rattle.walk_frames.specs.View.{facts_in, shape_in};
ghost use Rattle.walk_steps.specs.Laws as walk;
ghost use Rattle.wp_base.specs.declared.kinds.Kind.{Kind};

use core_trees::FunctionVariable;
use qed_terms::Term;
use std::alloc::Global;
use walk_frames::Frame;
use wp_base::{NoMemory, Str};

/// What a slot has: any integer, under the slot's own name, or this number.
#[derive(Clone, Copy)]
pub enum Origin {
    Own,
    Fixed(i128),
}

// What a variable holds, and whether it was set.
fn put_pair(value: Origin, flag: i128, made: &mut Vec<Origin>) -> Result<(), NoMemory>
    ensures { OnOk result (view_origins made.new.items ≡ view_origins made.old.items ++ view_origin value ∷ walk.fixed flag ∷ []) }
{
    made.push(value)?;
    made.push(Origin::Fixed(flag))?;
    Ok(())
}

// The variables of the file are set all the time.
#[tactic(auto, using(crate::proofs::Starts::file_step))]
fn put_file(variables: &[FunctionVariable], made: &mut Vec<Origin>) -> Result<(), NoMemory>
    ensures { OnOk result (view_origins made.new.items ≡ view_origins made.old.items ++ spec.file_origins (view_variables variables.now)) }
{
    for _variable in variables {
        put_pair(Origin::Own, 1, made)?;
    }
    Ok(())
}

// The first ones are parameters.
#[tactic(auto, using(crate::proofs::Starts::param_step, crate::proofs::Starts::local_step))]
fn put_own(
    params: u32,
    variables: &[FunctionVariable],
    made: &mut Vec<Origin>,
) -> Result<(), NoMemory>
    ensures { OnOk result (view_origins made.new.items ≡ view_origins made.old.items ++ spec.own_origins params (view_variables variables.now)) }
{
    let mut left = params;
    for _variable in variables {
        if left > 0 {
            put_pair(Origin::Own, 1, made)?;
            left -= 1;
        } else {
            put_pair(Origin::Fixed(0), 0, made)?;
        }
    }
    Ok(())
}

#[tactic(auto, using(crate::proofs::Starts::zero_step))]
fn put_zeros(count: usize, made: &mut Vec<Origin>) -> Result<(), NoMemory>
    ensures { OnOk result (view_origins made.new.items ≡ view_origins made.old.items ++ spec.zero_origins count) }
{
    for _slot in 0..count {
        made.push(Origin::Fixed(0))?;
    }
    Ok(())
}

/// What the slots of a function with so many parameters have.
pub(crate) fn origins_of<'a>(
    alloc: Global,
    frame: Frame<'a>,
    params: u32,
) -> Result<Vec<Origin>, NoMemory>
    ensures { (m : sense.World) (k : ℕ → Kind) (texts : Texts) → IfOk result (λ made. view_origins made.items ≡ spec.origins_of m (facts_in frame.entry) (shape_in frame.entry k) texts params) }
{
    let behind = frame.temporaries.checked_add(2).ok_or(NoMemory)?;
    let mut made = Vec::new(alloc);
    put_file(frame.facts.globals.as_slice(), &mut made)?;
    put_own(params, frame.variables.as_slice(), &mut made)?;
    put_zeros(behind, &mut made)?;
    Ok(made)
}

fn slot_of(alloc: Global, base: &Str, origin: Origin) -> Result<Term, NoMemory>
    ensures { IfOk result (λ made. (bs : List (List ℕ)) (os : List walk.Origin) → term_tree made ∷ walk.start_slots bs os ≡ walk.start_slots (base.now ∷ bs) (view_origin origin ∷ os)) }
{
    match origin {
        Origin::Own => Term::name(alloc, base),
        Origin::Fixed(value) => Ok(Term::number(value)),
    }
}

/// The terms in the slots that have these base names.
#[tactic(auto, using(crate::proofs::Starts::slot_step, crate::proofs::Starts::no_more, crate::proofs::Starts::all_done))]
pub(crate) fn slots_of(
    alloc: Global,
    bases: &[Str],
    origins: &[Origin],
) -> Result<Vec<Term>, NoMemory>
    ensures { IfOk result (λ made. map term_tree made.items ≡ walk.start_slots bases.now (view_origins origins.now)) }
{
    let mut made = Vec::new(alloc);
    for index in 0..origins.len() {
        if index >= bases.len() {
            return Ok(made);
        }
        made.push(slot_of(alloc, &bases[index], origins[index])?)?;
    }
    Ok(made)
}
