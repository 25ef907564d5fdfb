// Parts that are put together where none lacked memory.
ghost use Rattle.std.specs.Prelude.{◌≡◌, IfOk, Ok};

use std::alloc::Global;
use wp_base::{Boxed, NoMemory};

// Both, where neither lacked memory.
pub(crate) fn both<A: Drop, B: Drop>(
    first: Result<A, NoMemory>,
    second: Result<B, NoMemory>,
) -> Result<(A, B), NoMemory>
    ensures { IfOk result (λ two. (first ≡ Ok two.0) × (second ≡ Ok two.1)) }
{
    let first = first?;
    Ok((first, second?))
}

// In a box, where memory wasn't wanting.
pub(crate) fn boxed<A: Drop>(alloc: Global, of: Result<A, NoMemory>) -> Result<Boxed<A>, NoMemory>
    ensures { IfOk result (λ one. of ≡ Ok one) }
{
    Boxed::new(alloc, of?)
}

// Both in boxes, where neither lacked memory.
pub(crate) fn both_boxed<A: Drop, B: Drop>(
    alloc: Global,
    first: Result<A, NoMemory>,
    second: Result<B, NoMemory>,
) -> Result<(Boxed<A>, Boxed<B>), NoMemory>
    ensures { IfOk result (λ two. (first ≡ Ok two.0) × (second ≡ Ok two.1)) }
{
    both(boxed(alloc, first), boxed(alloc, second))
}
