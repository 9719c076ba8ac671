//! The numbers of planes joined to those of others: what the upper halves of lines show, and what the lower ones show.

ghost use Rattle.std.specs.Prelude.{◌≡◌, ℕ, ◌+◌, ◌*◌, ◌^◌, ◌<◌, ◌≤◌, ◌++◌, All, List, drop, length, take};
ghost use Rattle.paris_field.specs.Numbers.{AllOf, bit_in, number_at};
ghost use Rattle.paris_scan.specs.Blocks.{row};
ghost use Rattle.paris_scan.specs.Mixed.{mixed_maximum, mixed_or, mixed_sum, mixed_xor};

use crate::bitwise::{Ors, Xors, put_planes};
use crate::combine::Commute;
use crate::maxima::{Maxima, mark_below};
use crate::sums::{Sums, or_both};
use paris_field::merge_planes;
use paris_plane::{Or, Plane, Xor, accumulate_step};

/// How the lists that the upper halves of lines show are joined to those that the lower ones show.
pub trait JoinHalves: Commute {
    /// Puts into each processor of `lower` what the list that its fellow in `upper` shows and the one that it shows come to, one after
    /// the other. `spare` is written over.
    fn join_halves(upper: &[Plane], lower: &mut [Plane], spare: &mut Plane)
        requires some { Self.extra ≤ length upper.now }
        requires same { length lower.old ≡ length upper.now }
        requires upper { AllOf (length spare.old) upper.now }
        requires lower { AllOf (length spare.old) lower.old }
        ensures long { AllOf (length spare.old) lower.new }
        ensures joined { (L v : ℕ) (xs ys : List ℕ) → length upper.now ≡ L + Self.extra → v < length spare.old → All (λ x. x < 2 ^ L) xs → All (λ x. x < 2 ^ L) ys
            → number_at upper.now v ≡ Self.shows L xs → number_at lower.old v ≡ Self.shows L ys → number_at lower.new v ≡ Self.shows L (xs ++ ys) };

    ghost mixed: { (L s k u : ℕ) (own : ℕ → List ℕ) → Self.shows L (row own (2 * s) k (u + s) ++ row own (2 * s) k u) ≡ Self.shows L (row own s (2 * k) u) };
}

impl JoinHalves for Ors {
    fn join_halves(upper: &[Plane], lower: &mut [Plane], _spare: &mut Plane) {
        put_planes::<Or>(lower, upper);
    }

    ghost mixed = { mixed_or };
}

impl JoinHalves for Xors {
    fn join_halves(upper: &[Plane], lower: &mut [Plane], _spare: &mut Plane) {
        put_planes::<Xor>(lower, upper);
    }

    ghost mixed = { mixed_xor };
}

impl JoinHalves for Maxima {
    fn join_halves(upper: &[Plane], lower: &mut [Plane], spare: &mut Plane) {
        mark_below(lower, upper, spare);
        merge_planes(lower, spare, upper, upper.len());
    }

    ghost mixed = { mixed_maximum };
}

/// Adds the numbers of the low planes of `x` to those of `sum`, and leaves in `carry` what is carried out.
fn add_planes(x: &[Plane], sum: &mut [Plane], count: usize, carry: &mut Plane)
    requires same { length sum.old ≡ length x.now }
    requires count { count ≤ length x.now }
    requires x { AllOf (length carry.old) x.now }
    requires sum { AllOf (length carry.old) sum.old }
    ensures long { length carry.new ≡ length carry.old }
    ensures planes { AllOf (length carry.old) sum.new }
    ensures exact { (v : ℕ) → v < length carry.old → bit_in carry.old v ≡ 0 → number_at (take count sum.new) v + 2 ^ count * bit_in carry.new v ≡ number_at (take count x.now) v + number_at (take count sum.old) v }
    ensures high { drop count sum.new ≡ drop count sum.old }
{
    for k in 0..count {
        accumulate_step(&x[k], &mut sum[k], carry);
    }
}

impl JoinHalves for Sums {
    fn join_halves(upper: &[Plane], lower: &mut [Plane], spare: &mut Plane) {
        let top = upper.len() - 1;
        spare.fill(false);
        add_planes(upper, lower, top, spare);
        or_both(&upper[top], spare, &mut lower[top]);
    }

    ghost mixed = { mixed_sum };
}
