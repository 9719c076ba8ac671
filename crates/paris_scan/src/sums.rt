//! Sums, with a plane on top that says where the exact sum needs more bits.

ghost use Rattle.std.specs.Prelude.{◌≡◌, ℕ, ◌+◌, ◌*◌, ◌^◌, ◌<◌, ◌≤◌, ◌||◌, drop, false, length, slice_index_or, take};
ghost use Rattle.paris_field.specs.Numbers.{AllOf, bit_in, number_at};
ghost use Rattle.paris_scan.specs.Brings.{Among, SumBrought};
ghost use Rattle.paris_scan.specs.Laws.{none_sum, one_sum, sums_swapped};
ghost use Rattle.paris_scan.specs.Sums.{sum_shown};

use crate::combine::{Combine, Commute};
use crate::partner::{Partner, bring};
use paris_plane::{Plane, accumulate_step};

/// Adds the numbers that come from partners, of the low planes, to those that are there, and leaves in `carry` what is carried
/// out. Each plane is brought into `scratch`, and added at once.
fn add_brought(
    partner: &Partner,
    state: &mut [Plane],
    count: usize,
    scratch: &mut Plane,
    carry: &mut Plane,
)
    requires count { count ≤ length state.old }
    requires partner { Among (length carry.old) partner.now }
    requires state { AllOf (length carry.old) state.old }
    requires scratch { length scratch.old ≡ length carry.old }
    ensures long { length carry.new ≡ length carry.old }
    ensures scratch { length scratch.new ≡ length carry.old }
    ensures planes { AllOf (length carry.old) state.new }
    ensures exact { (v : ℕ) → v < length carry.old → bit_in carry.old v ≡ 0 → SumBrought partner.now (length carry.old) (take count state.old) count v (number_at (take count state.new) v + 2 ^ count * bit_in carry.new v) }
    ensures high { drop count state.new ≡ drop count state.old }
{
    for k in 0..count {
        bring(partner, &state[k], scratch);
        accumulate_step(scratch, &mut state[k], carry);
    }
}

/// Puts a 1 also where one of two planes has one.
pub(crate) fn or_both(x: &Plane, y: &Plane, out: &mut Plane)
    requires x { length out.old ≡ length x.now }
    requires y { length out.old ≡ length y.now }
    ensures long { length out.new ≡ length out.old }
    ensures at { (v : ℕ) → v < length out.old → slice_index_or out.new v false ≡ ((slice_index_or out.old v false || slice_index_or x.now v false) || slice_index_or y.now v false) }
{
    out.or_in(x);
    out.or_in(y);
}

/// Sums.
pub struct Sums;

impl Combine for Sums {
    ghost extra = { 1 };

    ghost shows = { sum_shown };

    ghost none = { none_sum };

    fn join(partner: &Partner, state: &mut [Plane], brought: &mut [Plane], spare: &mut Plane) {
        let top = state.len() - 1;
        let scratch = &mut brought[0];
        spare.fill(false);
        add_brought(partner, state, top, scratch, spare);
        bring(partner, &state[top], scratch);
        or_both(scratch, spare, &mut state[top]);
    }
}

impl Commute for Sums {
    ghost one = { one_sum };

    ghost swapped = { sums_swapped };
}
