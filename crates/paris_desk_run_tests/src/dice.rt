//! Numbers that look random, and are the same in each run.

/// A generator of such numbers.
#[derive(Drop)]
pub(crate) struct Dice {
    state: u64,
}

impl Dice {
    pub(crate) fn new(seed: u64) -> Dice {
        Dice {
            state: seed.wrapping_mul(0x9E37_79B9_7F4A_7C15) | 1,
        }
    }

    /// A number below a bound.
    pub(crate) fn throw(&mut self, bound: u64) -> u64 {
        self.state ^= self.state << 13;
        self.state ^= self.state >> 7;
        self.state ^= self.state << 17;
        (self.state >> 11).checked_rem(bound).unwrap_or(0)
    }
}

/// One of the items of a table.
pub(crate) fn any_of<T: Copy>(dice: &mut Dice, first: T, table: &[T]) -> T {
    let place = dice.throw(table.len() as u64) as usize;
    *table.get(place).unwrap_or(&first)
}
