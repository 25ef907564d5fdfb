// Before statements that have no others in them.
ghost use Rattle.std.specs.Prelude.{◌≡◌, ◌==◌, ◌&&◌, ◌||◌, not, ℕ, List, IfOk};
ghost use Rattle.std.specs.Option.{option_map};
ghost use Rattle.checked_trees.specs.View.{view_goal};
ghost use Rattle.plain_runs.specs.Kept.{goal_temp};
ghost use Rattle.program_steps.specs.Temporaries as spec;
ghost use Rattle.typed_prog.specs.Tree.{values_of};
ghost use Rattle.typed_prog.specs.View.{view_value, view_values};
ghost use Rattle.walk_live.specs.Bits.{all_bits, bits};

use crate::sets::{clear, copy_set, empty_set, union};
use crate::uses::{mark_all, mark_uses};
use checked_trees::Goal;
use std::alloc::Global;
use typed_prog::Value;
use wp_base::{List, NoMemory};

/// With those that an expression uses.
pub(crate) fn with_use(value: &Value, after: Vec<bool>) -> Vec<bool>
    ensures { (c : ℕ) (f : spec.Temporaries) → after.items ≡ bits c f → result.items ≡ bits c (λ n. spec.uses (view_value value.now) n || f n) }
{
    let mut set = after;
    mark_uses(value, &mut set);
    set
}

/// With those that several use.
pub(crate) fn with_uses(values: &[Value], after: Vec<bool>) -> Vec<bool>
    ensures { (c : ℕ) (f : spec.Temporaries) → after.items ≡ bits c f → result.items ≡ bits c (λ n. spec.some_use (values_of (view_values values.now)) n || f n) }
{
    let mut set = after;
    mark_all(values, &mut set);
    set
}

/// Before a temporary gets a value.
pub(crate) fn before_set(number: u32, value: &Value, after: Vec<bool>) -> Vec<bool>
    ensures { (c : ℕ) (f : spec.Temporaries) → after.items ≡ bits c f → result.items ≡ bits c (λ n. spec.uses (view_value value.now) n || (not (number == n) && f n)) }
{
    let mut set = after;
    clear(number, &mut set);
    mark_uses(value, &mut set);
    set
}

// Before the result of a call goes somewhere.
fn before_goal<'a>(to: &Goal<'a>, set: &mut Vec<bool>)
    ensures { (c : ℕ) (f : spec.Temporaries) → set.old.items ≡ bits c f → set.new.items ≡ bits c (λ n. spec.goal_uses (view_goal to.now) n || (not (goal_temp (view_goal to.now) n) && f n)) }
{
    match to {
        Goal::Nowhere => {}
        Goal::Temporary(number) => clear(*number, set),
        Goal::Place(_, _, _, _, operands) => mark_all(operands.as_slice(), set),
        Goal::Variable(_) => {}
    }
}

/// Before a call.
pub(crate) fn before_call<'a>(to: &Goal<'a>, arguments: &[Value], after: Vec<bool>) -> Vec<bool>
    ensures { (c : ℕ) (f : spec.Temporaries) → after.items ≡ bits c f → result.items ≡ bits c (λ n. spec.some_use (values_of (view_values arguments.now)) n || (spec.goal_uses (view_goal to.now) n || (not (goal_temp (view_goal to.now) n) && f n))) }
{
    let mut set = after;
    before_goal(to, &mut set);
    mark_all(arguments, &mut set);
    set
}

/// Before a branch, in whose arms these are used.
pub(crate) fn before_branch(
    alloc: Global,
    test: &Value,
    first: &[bool],
    second: &[bool],
) -> Result<Vec<bool>, NoMemory>
    ensures { (c : ℕ) (f g : spec.Temporaries) → first.now ≡ bits c f → second.now ≡ bits c g → IfOk result (λ made. made.items ≡ bits c (λ n. spec.uses (view_value test.now) n || (f n || g n))) }
{
    let set = union(alloc, first, second)?;
    Ok(with_use(test, set))
}

/// Before an exit out of a block.
#[tactic(auto, using(crate::proofs::Bitwise::out_inside, crate::proofs::Bitwise::out_behind))]
pub(crate) fn before_exit(
    alloc: Global,
    block: u32,
    outs: &[List<bool>],
    after: Vec<bool>,
) -> Result<Vec<bool>, NoMemory>
    ensures { (c : ℕ) (os : List spec.Temporaries) (f : spec.Temporaries) → outs.now ≡ all_bits c os → after.items ≡ bits c f → IfOk result (λ made. made.items ≡ bits c (spec.out_at os block)) }
{
    let at = block as usize;
    if at < outs.len() {
        copy_set(alloc, outs[at].as_slice())
    } else {
        empty_set(alloc, after.as_slice())
    }
}

/// Before the function returns.
pub(crate) fn before_give(
    alloc: Global,
    value: &Option<Value>,
    after: &[bool],
) -> Result<Vec<bool>, NoMemory>
    ensures { (c : ℕ) (f : spec.Temporaries) → after.now ≡ bits c f → IfOk result (λ made. made.items ≡ bits c (spec.given_uses (option_map view_value value.now))) }
{
    let none = empty_set(alloc, after)?;
    match value {
        None => Ok(none),
        Some(value) => Ok(with_use(value, none)),
    }
}
