// Whether parts leave nothing where places of one class are taken as one.
ghost use Rattle.std.specs.Prelude.{◌≡◌, ◌==◌, ◌+ℤ◌, pos, if◌then◌else◌, ℕ, map, All, OnOk, IfOk};
ghost use Rattle.std.specs.Bool.{MatchBool};
ghost use Rattle.same_places.specs.Same.{at};
ghost use Rattle.term_forms.specs.Forms.{signed_number};
ghost use Rattle.clashes.specs.Sums.{signed_place, parts_between, class_sum, total_of, sum_in, EachSumVanishes};

use crate::seen::class_at;
use crate::totals::Total;
use same_places::Part;
use std::alloc::Global;
use std::collections::HashMap;
use wp_base::NoMemory;

#[tactic(auto, unfolding(crate::specs::Sums::sum_in))]
fn sum_at(sums: &HashMap<usize, Total>, class: usize) -> Total
    ensures { total_of result ≡ sum_in sums.now.entries class }
{
    match sums.get(&class) {
        Some(sum) => *sum,
        None => Total::none(),
    }
}

/// One more number in the sum of a class, or this number turned.
fn put_number(
    sums: &mut HashMap<usize, Total>,
    class: usize,
    number: i128,
    turned: bool,
) -> Result<(), NoMemory>
    ensures { OnOk result ((c : ℕ) → sum_in sums.new.entries c ≡ sum_in sums.old.entries c +ℤ (if class == c then signed_number turned number else pos 0)) }
{
    let sum = sum_at(sums, class).with(number, turned)?;
    sums.insert(class, sum)?;
    Ok(())
}

/// The coefficients of parts, or these turned, in the sums of their classes.
fn put_parts(
    classes: &[usize],
    parts: &[Part],
    turned: bool,
    sums: &mut HashMap<usize, Total>,
) -> Result<(), NoMemory>
    ensures { OnOk result ((c : ℕ) → sum_in sums.new.entries c ≡ sum_in sums.old.entries c +ℤ class_sum (at classes.now) c (map (signed_place turned) parts.now)) }
{
    for part in parts {
        put_number(sums, class_at(classes, part.0), part.1, turned)?;
    }
    Ok(())
}

/// Whether the sum of each part's class is 0.
fn are_nothing(classes: &[usize], parts: &[Part], sums: &HashMap<usize, Total>) -> bool
    ensures { MatchBool result (All (λ p. sum_in sums.now.entries (at classes.now p.0) ≡ pos 0) parts.now) (All (λ p. sum_in sums.now.entries (at classes.now p.0) ≡ pos 0) parts.now → ⊥) }
{
    for part in parts {
        if !sum_at(sums, class_at(classes, part.0)).is_zero() {
            return false;
        }
    }
    true
}

/// Whether the first parts less the second ones leave nothing.
pub fn vanish(
    alloc: Global,
    classes: &[usize],
    first: &[Part],
    second: &[Part],
) -> Result<bool, NoMemory>
    ensures { IfOk result (λ b. MatchBool b (EachSumVanishes (at classes.now) (parts_between first.now second.now) (parts_between first.now second.now)) (EachSumVanishes (at classes.now) (parts_between first.now second.now) (parts_between first.now second.now) → ⊥)) }
{
    let mut sums = HashMap::new(alloc);
    put_parts(classes, first, false, &mut sums)?;
    put_parts(classes, second, true, &mut sums)?;
    if !are_nothing(classes, first, &sums) {
        return Ok(false);
    }
    let answer = are_nothing(classes, second, &sums);
    Ok(answer)
}
