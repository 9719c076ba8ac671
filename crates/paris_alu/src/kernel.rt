//! Operations on three words that arithmetic is made of.

ghost use Rattle.std.specs.Prelude.{◌≡◌, ℕ, ◌<◌, length, slice_index, bit_and};
ghost use Rattle.std.specs.Int.Bits.{bit_or, bit_xor};
ghost use Rattle.paris_alu.specs.Bits.{difference_overflow_bit, difference_overflow_word, sum_overflow_bit, sum_overflow_word, unlike_bit, unlike_word};
ghost use Rattle.paris_alu.specs.Laws.{difference_overflow_by_bit, sum_overflow_by_bit, unlike_by_bit};

use paris_plane::TripleOp;
use std::simd::prelude::*;

/// 1 where the first is, and also where the others differ.
pub(crate) struct Unlike;

impl TripleOp for Unlike {
    ghost op = { unlike_word };

    ghost bit = { unlike_bit };

    ghost by_bit = { unlike_by_bit };

    fn lanes(x: u64x4, y: u64x4, z: u64x4) -> u64x4 {
        x | (y ^ z)
    }

    fn word(x: u64, y: u64, z: u64) -> u64 {
        x | (y ^ z)
    }
}

/// Whether a sum overflows, from its top bit and those of its operands: it has another sign than both.
pub(crate) struct SumOverflow;

impl TripleOp for SumOverflow {
    ghost op = { sum_overflow_word };

    ghost bit = { sum_overflow_bit };

    ghost by_bit = { sum_overflow_by_bit };

    fn lanes(x: u64x4, y: u64x4, z: u64x4) -> u64x4 {
        (x ^ y) & (x ^ z)
    }

    fn word(x: u64, y: u64, z: u64) -> u64 {
        (x ^ y) & (x ^ z)
    }
}

/// Whether a difference overflows, from its top bit and those of its operands: they have two signs, and it has not the
/// first's.
pub(crate) struct DifferenceOverflow;

impl TripleOp for DifferenceOverflow {
    ghost op = { difference_overflow_word };

    ghost bit = { difference_overflow_bit };

    ghost by_bit = { difference_overflow_by_bit };

    fn lanes(x: u64x4, y: u64x4, z: u64x4) -> u64x4 {
        (x ^ y) & (y ^ z)
    }

    fn word(x: u64, y: u64, z: u64) -> u64 {
        (x ^ y) & (y ^ z)
    }
}
