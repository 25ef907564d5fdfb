// Behind statements, and in the two arms of a branch.
ghost use Rattle.std.specs.Prelude.{◌≡◌, ◌++◌, ◌∷◌, [], ◌&&◌, ◌||◌, not, ℕ, List, map, IfOk};
ghost use Rattle.walk_live.specs.declared.behind.Behind.{Behind};
ghost use Rattle.checked_trees.specs.View.{view_step, view_steps};
ghost use Rattle.program_steps.specs.Temporaries as spec;
ghost use Rattle.typed_prog.specs.View.{view_value};
ghost use Rattle.walk_live.specs.Bits.{all_bits, behind_each, bits, unused_behind, unused_in};

use crate::live::{all_live, live, mark_temps};
use crate::sets::{copy_set, difference};
use crate::singles::with_use;
use checked_trees::Step;
use std::alloc::Global;
use typed_prog::Value;
use wp_base::{List, NoMemory};

/// Behind a statement: which temporaries are used from there on, and which aren't that were used before it or set in it.
#[derive(Drop)]
pub struct Behind {
    pub live: List<bool>,
    pub unused: List<bool>,
}

/// At the head of each arm of a branch: which temporaries aren't used in it that were used before, or are in the other one.
#[derive(Drop)]
pub struct ArmSets {
    pub first: List<bool>,
    pub second: List<bool>,
}

// Those that were used before a statement, or are set in it, and aren't used behind it.
fn unused<'a>(
    alloc: Global,
    step: &Step<'a>,
    before: &[bool],
    behind: &[bool],
) -> Result<List<bool>, NoMemory>
    ensures { (c : ℕ) (os : List spec.Temporaries) (f : spec.Temporaries) → before.now ≡ bits c (spec.live (view_step step.now) os f) → behind.now ≡ bits c f → IfOk result (λ made. made ≡ bits c (unused_behind (view_step step.now) os f)) }
{
    let mut used = copy_set(alloc, before)?;
    mark_temps(step, &mut used);
    let made = difference(alloc, used.as_slice(), behind)?;
    Ok(List::from_vec(made))
}

/// Behind each of these statements, the last one first.
#[tactic(auto, using(crate::proofs::Marks::one_before, crate::proofs::Marks::behind_before))]
pub fn behind_all<'a>(
    alloc: Global,
    steps: &[Step<'a>],
    outs: &[List<bool>],
    after: &[bool],
) -> Result<Vec<Behind>, NoMemory>
    ensures { (c : ℕ) (os : List spec.Temporaries) (f : spec.Temporaries) → outs.now ≡ all_bits c os → after.now ≡ bits c f → IfOk result (λ made. made.items ≡ behind_each c os f (map view_step steps.now)) }
{
    let mut made = Vec::new(alloc);
    let mut set = copy_set(alloc, after)?;
    let mut left = steps.len();
    while left > 0 {
        let step = &steps[left - 1];
        let behind = copy_set(alloc, set.as_slice())?;
        set = live(step, alloc, outs, set)?;
        let unused = unused(alloc, step, set.as_slice(), behind.as_slice())?;
        made.push(Behind {
            live: List::from_vec(behind),
            unused,
        })?;
        left -= 1;
    }
    Ok(made)
}

// Those that the test or the other arm uses, and this one doesn't.
fn unused_in_arm(
    alloc: Global,
    test: &Value,
    other: &[bool],
    own: &[bool],
) -> Result<List<bool>, NoMemory>
    ensures { (c : ℕ) (f g : spec.Temporaries) → other.now ≡ bits c f → own.now ≡ bits c g → IfOk result (λ made. made ≡ bits c (λ n. (spec.uses (view_value test.now) n || f n) && not (g n))) }
{
    let used = with_use(test, copy_set(alloc, other)?);
    let made = difference(alloc, used.as_slice(), own)?;
    Ok(List::from_vec(made))
}

/// At the heads of the arms of a branch.
pub fn in_arms<'a>(
    alloc: Global,
    test: &Value,
    first: &[Step<'a>],
    second: &[Step<'a>],
    outs: &[List<bool>],
    after: &[bool],
) -> Result<ArmSets, NoMemory>
    ensures first { (c : ℕ) (os : List spec.Temporaries) (f : spec.Temporaries) → outs.now ≡ all_bits c os → after.now ≡ bits c f → IfOk result (λ made. made.first ≡ bits c (unused_in (view_value test.now) (view_steps second.now) (view_steps first.now) os f)) }
    ensures second { (c : ℕ) (os : List spec.Temporaries) (f : spec.Temporaries) → outs.now ≡ all_bits c os → after.now ≡ bits c f → IfOk result (λ made. made.second ≡ bits c (unused_in (view_value test.now) (view_steps first.now) (view_steps second.now) os f)) }
{
    let in_first = all_live(first, alloc, outs, copy_set(alloc, after)?)?;
    let in_second = all_live(second, alloc, outs, copy_set(alloc, after)?)?;
    let first = unused_in_arm(alloc, test, in_second.as_slice(), in_first.as_slice())?;
    let second = unused_in_arm(alloc, test, in_first.as_slice(), in_second.as_slice())?;
    Ok(ArmSets { first, second })
}

/// What is behind the next statement.
pub fn next_behind(alloc: Global, behind: &mut Vec<Behind>) -> Behind
    ensures { (left : List Behind) (next : Behind) → behind.old.items ≡ left ++ next ∷ [] → (result ≡ next) × (behind.new.items ≡ left) }
{
    match behind.pop() {
        Some(next) => next,
        None => Behind {
            live: List::new(alloc),
            unused: List::new(alloc),
        },
    }
}
