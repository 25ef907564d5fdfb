// Totals of numbers of 128 bits, of any size.
ghost use Rattle.std.specs.Prelude.{◌≡◌, ◌↔◌, ◌+ℤ◌, ◌-ℤ◌, pos, IfOk, IsTrue};
ghost use Rattle.term_forms.specs.Forms.{signed_number};
ghost use Rattle.clashes.specs.Sums.{total_of};

use wp_base::NoMemory;

/// A total: `low`, and 2^128 for each turn.
#[derive(Clone, Copy)]
pub struct Total {
    pub low: i128,
    pub turns: i128,
}

impl Total {
    pub fn none() -> Total
        ensures { total_of result ≡ pos 0 }
    {
        Total { low: 0, turns: 0 }
    }

    /// With one more number, or with this number turned. There is no memory for so many numbers that their turns pass 128 bits.
    pub fn with(self, number: i128, turned: bool) -> Result<Total, NoMemory>
        ensures { IfOk result (λ total. total_of total ≡ total_of self +ℤ signed_number turned number) }
    {
        let next = step(self.low, number, turned);
        match self.turns.checked_add(next.turns) {
            Some(turns) => Ok(Total {
                low: next.low,
                turns,
            }),
            None => Err(NoMemory),
        }
    }

    pub fn is_zero(self) -> bool
        ensures { IsTrue result ↔ (total_of self ≡ pos 0) }
    {
        self.low == 0 && self.turns == 0
    }
}

fn step(low: i128, number: i128, turned: bool) -> Total
    ensures { total_of result ≡ low +ℤ signed_number turned number }
{
    if turned {
        less(low, number)
    } else {
        more(low, number)
    }
}

// The sum of two numbers.
fn more(left: i128, right: i128) -> Total
    ensures { total_of result ≡ left +ℤ right }
{
    match left.checked_add(right) {
        Some(low) => Total { low, turns: 0 },
        None => {
            if right < 0 {
                Total {
                    low: (left - i128::MIN) + (right - i128::MIN),
                    turns: -1,
                }
            } else {
                Total {
                    low: (left + i128::MIN) + (right + i128::MIN),
                    turns: 1,
                }
            }
        }
    }
}

// The difference of two numbers.
fn less(left: i128, right: i128) -> Total
    ensures { total_of result ≡ left -ℤ right }
{
    match left.checked_sub(right) {
        Some(low) => Total { low, turns: 0 },
        None => {
            if right < 0 {
                Total {
                    low: (left + i128::MIN) - (right - i128::MIN),
                    turns: 1,
                }
            } else {
                Total {
                    low: (left - i128::MIN) - (right + i128::MIN),
                    turns: -1,
                }
            }
        }
    }
}
