// Lists and copies of two.
ghost use Rattle.std.specs.Prelude.{◌≡◌, [], ◌∷◌, IfOk};

use qed_terms::Term;
use std::alloc::Global;
use wp_base::{List, NoMemory};

/// The list of two.
pub fn pair<T: Drop>(alloc: Global, left: T, right: T) -> Result<List<T>, NoMemory>
    ensures { IfOk result (λ both. both ≡ left ∷ right ∷ []) }
{
    let mut both = List::new(alloc);
    both.push(left)?;
    both.push(right)?;
    Ok(both)
}

/// Copies of two terms.
pub fn copy_both(alloc: Global, left: &Term, right: &Term) -> Result<(Term, Term), NoMemory>
    ensures { IfOk result (λ both. (both.0 ≡ left.now) × (both.1 ≡ right.now)) }
{
    let left = left.copy(alloc)?;
    let right = right.copy(alloc)?;
    Ok((left, right))
}
