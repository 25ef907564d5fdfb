// Whether numbers are within the limit of links.
ghost use Rattle.std.specs.Prelude.{◌≡◌, MatchOption};
ghost use Rattle.std.specs.Bool.{MatchBool};
ghost use Rattle.wide_sums.specs.Sums.{wide_value};
ghost use Rattle.branch_links.specs.BranchLinks.{IsWithin};

use wide_sums::Wide;

/// 2^96, the size that coefficients and bounds of links have at most.
const LIMIT: i128 = 79_228_162_514_264_337_593_543_950_336;

fn is_within(value: &i128) -> bool
    ensures { MatchBool result (IsWithin value.now) (IsWithin value.now → ⊥) }
{
    if *value < -LIMIT {
        return false;
    }
    *value <= LIMIT
}

/// The number, where its size is at most 2^96.
pub fn within(sum: &Wide) -> Option<i128>
    ensures { MatchOption result (IsWithin (wide_value sum.now) → ⊥) (λ z. (z ≡ wide_value sum.now) × IsWithin z) }
{
    let Some(value) = sum.narrow() else {
        return None
    };
    if is_within(&value) { Some(value) } else { None }
}
