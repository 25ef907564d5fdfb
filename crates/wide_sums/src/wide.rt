// Sums of any size of numbers of 128 bits.
ghost use Rattle.std.specs.Prelude.{◌≡◌, negsuc, ◌+ℤ◌, ◌*ℤ◌, IfOk, SomeIff, FitsSigned};
ghost use Rattle.std.specs.Int.{w128};
ghost use Rattle.wide_sums.specs.Sums.{wide_value};

use wp_base::NoMemory;

/// A sum: `low`, and 2^128 for each turn.
#[derive(Clone, Copy)]
pub struct Wide {
    pub low: i128,
    pub turns: i128,
}

impl Wide {
    pub fn of(value: i128) -> Wide
        ensures { wide_value result ≡ value }
    {
        Wide {
            low: value,
            turns: 0,
        }
    }

    /// A number turned.
    pub fn negative_of(value: i128) -> Wide
        ensures { wide_value result ≡ negsuc 0 *ℤ value }
    {
        match value.checked_neg() {
            Some(low) => Wide { low, turns: 0 },
            None => Wide {
                low: i128::MIN,
                turns: 1,
            },
        }
    }

    /// The sum of two. There is no memory for one of 2^255 or more in size: that takes 2^127 numbers of 128 bits, or products of numbers near 2^127.
    pub fn plus(self, other: Wide) -> Result<Wide, NoMemory>
        ensures { IfOk result (λ sum. wide_value sum ≡ wide_value self +ℤ wide_value other) }
    {
        let turns = match self.turns.checked_add(other.turns) {
            Some(turns) => turns,
            None => return Err(NoMemory),
        };
        let sum = add_low(self.low, other.low);
        match turns.checked_add(sum.turns) {
            Some(turns) => Ok(Wide {
                low: sum.low,
                turns,
            }),
            None => Err(NoMemory),
        }
    }

    /// The number, where it fits 128 bits.
    pub fn narrow(self) -> Option<i128>
        ensures { SomeIff result (FitsSigned w128 (wide_value self)) (wide_value self) }
    {
        if self.turns == 0 {
            Some(self.low)
        } else {
            None
        }
    }
}

// The sum of two numbers.
fn add_low(left: i128, right: i128) -> Wide
    ensures { wide_value result ≡ left +ℤ right }
{
    match left.checked_add(right) {
        Some(low) => Wide { low, turns: 0 },
        None => {
            if right < 0 {
                Wide {
                    low: (left - i128::MIN) + (right - i128::MIN),
                    turns: -1,
                }
            } else {
                Wide {
                    low: (left + i128::MIN) + (right + i128::MIN),
                    turns: 1,
                }
            }
        }
    }
}
