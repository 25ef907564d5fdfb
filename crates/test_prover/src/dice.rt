// Numbers that look random, the same in each run.

/// A linear congruential generator, by its state.
#[derive(Clone, Copy)]
pub struct Dice {
    pub state: u64,
}

impl Dice {
    /// A number from 0 up to below the count.
    pub fn roll(&mut self, count: u64) -> u64 {
        self.state = self
            .state
            .wrapping_mul(6364136223846793005)
            .wrapping_add(1442695040888963407);
        (self.state >> 33).checked_rem(count).unwrap_or(0)
    }

    /// The least number and those behind it, so many.
    pub fn number(&mut self, least: i128, count: u64) -> i128 {
        least.wrapping_add(i128::from(self.roll(count)))
    }

    /// One of these, and 0 where there is none.
    pub fn pick(&mut self, items: &[usize]) -> usize {
        let at = self.roll(items.len() as u64) as usize;
        items.get(at).copied().unwrap_or(0)
    }
}
