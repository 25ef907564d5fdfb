// Sets of temporaries.
ghost use Rattle.std.specs.Prelude.{◌≡◌, ◌==◌, ◌&&◌, ◌||◌, not, ℕ, IfOk};
ghost use Rattle.program_steps.specs.Temporaries as spec;
ghost use Rattle.walk_live.specs.Bits.{bits};

use std::alloc::Global;
use wp_base::NoMemory;

/// A copy.
pub(crate) fn copy_set(alloc: Global, set: &[bool]) -> Result<Vec<bool>, NoMemory>
    ensures { IfOk result (λ copy. copy.items ≡ set.now) }
{
    let mut copy = Vec::new(alloc);
    for bit in set {
        copy.push(*bit)?;
    }
    Ok(copy)
}

/// As many, of which none is in it.
pub(crate) fn empty_set(alloc: Global, like: &[bool]) -> Result<Vec<bool>, NoMemory>
    ensures { (c : ℕ) (f : spec.Temporaries) → like.now ≡ bits c f → IfOk result (λ none. none.items ≡ bits c spec.no_temporaries) }
{
    let mut none = Vec::new(alloc);
    for _bit in like {
        none.push(false)?;
    }
    Ok(none)
}

/// This one is in it.
#[tactic(auto, using(crate::proofs::Bitwise::marked, crate::proofs::Bitwise::not_marked))]
pub fn mark(number: u32, set: &mut Vec<bool>)
    ensures { (c : ℕ) (f : spec.Temporaries) → set.old.items ≡ bits c f → set.new.items ≡ bits c (λ n. (number == n) || f n) }
{
    let at = number as usize;
    if at < set.len() {
        set[at] = true;
    }
}

/// This one isn't in it.
#[tactic(auto, using(crate::proofs::Bitwise::cleared, crate::proofs::Bitwise::not_cleared))]
pub(crate) fn clear(number: u32, set: &mut Vec<bool>)
    ensures { (c : ℕ) (f : spec.Temporaries) → set.old.items ≡ bits c f → set.new.items ≡ bits c (λ n. not (number == n) && f n) }
{
    let at = number as usize;
    if at < set.len() {
        set[at] = false;
    }
}

fn is_first_alone(first: bool, second: bool) -> bool
    ensures { result ≡ (first && not second) }
{
    first && !second
}

fn is_any(first: bool, second: bool) -> bool
    ensures { result ≡ (first || second) }
{
    first || second
}

/// Those of the first set that aren't in the second one.
pub(crate) fn difference(
    alloc: Global,
    first: &[bool],
    second: &[bool],
) -> Result<Vec<bool>, NoMemory>
    ensures { (c : ℕ) (f g : spec.Temporaries) → first.now ≡ bits c f → second.now ≡ bits c g → IfOk result (λ made. made.items ≡ bits c (λ n. f n && not (g n))) }
{
    let mut made = Vec::new(alloc);
    for at in 0..first.len().min(second.len()) {
        let bit = is_first_alone(first[at], second[at]);
        made.push(bit)?;
    }
    Ok(made)
}

/// Those of both sets.
pub(crate) fn union(alloc: Global, first: &[bool], second: &[bool]) -> Result<Vec<bool>, NoMemory>
    ensures { (c : ℕ) (f g : spec.Temporaries) → first.now ≡ bits c f → second.now ≡ bits c g → IfOk result (λ made. made.items ≡ bits c (λ n. f n || g n)) }
{
    let mut made = Vec::new(alloc);
    for at in 0..first.len().min(second.len()) {
        let bit = is_any(first[at], second[at]);
        made.push(bit)?;
    }
    Ok(made)
}
