//! The operators on numbers.

ghost use Rattle.std.specs.Prelude.{◌≡◌, ℕ, ◌-◌, ◌<◌, ◌≤◌, ◌^◌};
ghost use Rattle.paris_model.specs.Combine.{combine};
ghost use Rattle.paris_model.specs.declared.operators.Combiner.{Combiner};
ghost use Rattle.paris_model.specs.declared.operators.Combiner.TheVariants.{BitAnd, BitOr, BitXor, Maximum, Minimum, Sum};

use paris_model::Combiner;
use paris_router::low_mask;

/// Two numbers of `bits` bits, up to 128, combined.
pub fn apply(operator: Combiner, bits: u64, x: u128, y: u128) -> u128
    requires narrow { bits ≤ 128 }
    requires x_fits { x < 2 ^ bits }
    requires y_fits { y < 2 ^ bits }
    ensures value { result ≡ combine operator bits x y }
    ensures fits { result < 2 ^ bits }
{
    match operator {
        Combiner::Sum => x.wrapping_add(y) & low_mask(bits),
        Combiner::BitOr => x | y,
        Combiner::BitAnd => x & y,
        Combiner::BitXor => x ^ y,
        Combiner::Maximum => x.max(y),
        Combiner::Minimum => x.min(y),
    }
}

/// An operator on words.
pub(crate) trait Join {
    ghost operator: { Combiner };

    /// Two words combined, where `mask` has a 1 for each of their bits.
    fn join(mask: u64, held: u64, sent: u64) -> u64
        ensures { (L : ℕ) → L ≤ 64 → mask ≡ 2 ^ L - 1 → result ≡ combine operator L held sent };
}

/// The sum.
pub(crate) struct Sums;

impl Join for Sums {
    ghost operator = { Sum };

    fn join(mask: u64, held: u64, sent: u64) -> u64 {
        held.wrapping_add(sent) & mask
    }
}

/// 1 where one of the two is, or both.
pub(crate) struct BitOrs;

impl Join for BitOrs {
    ghost operator = { BitOr };

    fn join(_mask: u64, held: u64, sent: u64) -> u64 {
        held | sent
    }
}

/// 1 where both are.
pub(crate) struct BitAnds;

impl Join for BitAnds {
    ghost operator = { BitAnd };

    fn join(_mask: u64, held: u64, sent: u64) -> u64 {
        held & sent
    }
}

/// 1 where the two differ.
pub(crate) struct BitXors;

impl Join for BitXors {
    ghost operator = { BitXor };

    fn join(_mask: u64, held: u64, sent: u64) -> u64 {
        held ^ sent
    }
}

/// The greater one.
pub(crate) struct Maxima;

impl Join for Maxima {
    ghost operator = { Maximum };

    fn join(_mask: u64, held: u64, sent: u64) -> u64 {
        held.max(sent)
    }
}

/// The lesser one.
pub(crate) struct Minima;

impl Join for Minima {
    ghost operator = { Minimum };

    fn join(_mask: u64, held: u64, sent: u64) -> u64 {
        held.min(sent)
    }
}
