// Temporaries that are used from a statement on, told backwards; and those that a statement sets.
ghost use Rattle.std.specs.Prelude.{◌≡◌, ◌∷◌, ◌||◌, ℕ, List, IfOk};
ghost use Rattle.checked_trees.specs.View.{view_goal, view_step, view_steps};
ghost use Rattle.plain_runs.specs.Kept.{goal_temp, some_temps, temps};
ghost use Rattle.program_steps.specs.Temporaries as spec;
ghost use Rattle.walk_live.specs.Bits.{all_bits, bits};

use crate::sets::{copy_set, empty_set, mark};
use crate::singles::{
    before_branch, before_call, before_exit, before_give, before_set, with_use, with_uses,
};
use checked_trees::{Goal, Step};
use std::alloc::Global;
use wp_base::{List, NoMemory};

/// Inside one block more, behind which these are used.
pub fn around(
    alloc: Global,
    after: &[bool],
    outs: &[List<bool>],
) -> Result<List<List<bool>>, NoMemory>
    ensures { IfOk result (λ made. made ≡ after.now ∷ outs.now) }
{
    let mut made = Vec::new(alloc);
    made.push(List::from_vec(copy_set(alloc, after)?))?;
    for set in outs {
        made.push(List::from_vec(copy_set(alloc, set.as_slice())?))?;
    }
    Ok(List::from_vec(made))
}

/// None of them.
pub fn no_temporaries(alloc: Global, after: &[bool]) -> Result<List<bool>, NoMemory>
    ensures { (c : ℕ) (f : spec.Temporaries) → after.now ≡ bits c f → IfOk result (λ none. none ≡ bits c spec.no_temporaries) }
{
    Ok(List::from_vec(empty_set(alloc, after)?))
}

/// Before a statement.
#[cycle(live)]
#[tactic(auto, using(checked_trees::proofs::Equations::step_laws, crate::proofs::Bitwise::nothing_to_tell))]
pub(crate) fn live<'a>(
    step: &Step<'a>,
    alloc: Global,
    outs: &[List<bool>],
    after: Vec<bool>,
) -> Result<Vec<bool>, NoMemory>
    ensures { (c : ℕ) (os : List spec.Temporaries) (f : spec.Temporaries) → outs.now ≡ all_bits c os → after.items ≡ bits c f → IfOk result (λ made. made.items ≡ bits c (spec.live (view_step step.now) os f)) }
{
    if after.is_empty() {
        return Ok(after);
    }
    match step {
        Step::Set(_, number, value) => Ok(before_set(*number, value, after)),
        Step::Store(_, _, _, _, values) => Ok(with_uses(values.as_slice(), after)),
        Step::Start(_, _, value) => Ok(with_use(value, after)),
        Step::Call(_, to, _, _, arguments) => Ok(before_call(to, arguments.as_slice(), after)),
        Step::Branch(_, test, first, second) => {
            let other = copy_set(alloc, after.as_slice())?;
            let first = all_live(first.as_slice(), alloc, outs, after)?;
            let second = all_live(second.as_slice(), alloc, outs, other)?;
            before_branch(alloc, test, first.as_slice(), second.as_slice())
        }
        Step::Repeat(_, body) => {
            let none = empty_set(alloc, after.as_slice())?;
            all_live(body.as_slice(), alloc, outs, none)
        }
        Step::Around(body) => {
            let inner = around(alloc, after.as_slice(), outs)?;
            all_live(body.as_slice(), alloc, inner.as_slice(), after)
        }
        Step::Exit(block) => before_exit(alloc, *block, outs, after),
        Step::Give(_, value) => before_give(alloc, value, after.as_slice()),
        Step::Claim(_) => Ok(after),
        Step::Scope(_, body) => all_live(body.as_slice(), alloc, outs, after),
    }
}

/// Before statements.
#[cycle(live)]
#[tactic(auto, using(crate::proofs::Marks::one_before))]
pub(crate) fn all_live<'a>(
    steps: &[Step<'a>],
    alloc: Global,
    outs: &[List<bool>],
    after: Vec<bool>,
) -> Result<Vec<bool>, NoMemory>
    ensures { (c : ℕ) (os : List spec.Temporaries) (f : spec.Temporaries) → outs.now ≡ all_bits c os → after.items ≡ bits c f → IfOk result (λ made. made.items ≡ bits c (spec.all_live (view_steps steps.now) os f)) }
{
    let mut set = after;
    let mut left = steps.len();
    while left > 0 {
        set = live(&steps[left - 1], alloc, outs, set)?;
        left -= 1;
    }
    Ok(set)
}

/// Those that a statement sets.
#[cycle(temps)]
#[tactic(auto, using(checked_trees::proofs::Equations::step_laws, crate::proofs::Bitwise::nothing_to_tell, crate::proofs::Marks::branch_marked))]
pub(crate) fn mark_temps<'a>(step: &Step<'a>, set: &mut Vec<bool>)
    ensures { (c : ℕ) (f : spec.Temporaries) → set.old.items ≡ bits c f → set.new.items ≡ bits c (λ n. temps (view_step step.now) n || f n) }
{
    if set.is_empty() {
        return;
    }
    match step {
        Step::Set(_, number, _) => mark(*number, set),
        Step::Call(_, to, _, _, _) => mark_goal(to, set),
        Step::Branch(_, _, first, second) => {
            mark_all_temps(second.as_slice(), set);
            mark_all_temps(first.as_slice(), set)
        }
        Step::Repeat(_, body) => mark_all_temps(body.as_slice(), set),
        Step::Around(body) => mark_all_temps(body.as_slice(), set),
        Step::Scope(_, body) => mark_all_temps(body.as_slice(), set),
        Step::Store(_, _, _, _, _) => {}
        Step::Start(_, _, _) => {}
        Step::Exit(_) => {}
        Step::Give(_, _) => {}
        Step::Claim(_) => {}
    }
}

/// Those that statements set.
#[cycle(temps)]
pub(crate) fn mark_all_temps<'a>(steps: &[Step<'a>], set: &mut Vec<bool>)
    ensures { (c : ℕ) (f : spec.Temporaries) → set.old.items ≡ bits c f → set.new.items ≡ bits c (λ n. some_temps (view_steps steps.now) n || f n) }
{
    for step in steps {
        mark_temps(step, set);
    }
}

// The one that a result of a call goes to.
fn mark_goal<'a>(to: &Goal<'a>, set: &mut Vec<bool>)
    ensures { (c : ℕ) (f : spec.Temporaries) → set.old.items ≡ bits c f → set.new.items ≡ bits c (λ n. goal_temp (view_goal to.now) n || f n) }
{
    if let Goal::Temporary(number) = to {
        mark(*number, set);
    }
}
