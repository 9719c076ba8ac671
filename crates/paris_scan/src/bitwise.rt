//! Values combined bit by bit.

ghost use Rattle.std.specs.Prelude.{◌≡◌, ℕ, ◌<◌, length};
ghost use Rattle.std.specs.Simd.Lanes.{zip2};
ghost use Rattle.paris_model.specs.Combine.{combined};
ghost use Rattle.paris_model.specs.declared.operators.Combiner.TheVariants.{BitOr, BitXor};
ghost use Rattle.paris_field.specs.Numbers.{plane_at};
ghost use Rattle.paris_scan.specs.Laws.{none_or, none_xor, one_or, one_xor, ors_swapped, xors_swapped};

use crate::combine::{Combine, Commute};
use crate::partner::{Partner, bring_planes};
use paris_plane::{Or, Plane, WordOp, Xor};

/// Puts what the operation makes of each bit and that of `other` in its place.
pub(crate) fn put_planes<O: WordOp>(planes: &mut [Plane], other: &[Plane])
    requires same { length other.now ≡ length planes.old }
    requires long { (k : ℕ) → k < length other.now → length (plane_at planes.old k) ≡ length (plane_at other.now k) }
    ensures at { (k : ℕ) → k < length other.now → plane_at planes.new k ≡ zip2 O.bit (plane_at planes.old k) (plane_at other.now k) }
{
    for k in 0..other.len() {
        planes[k].put::<O>(&other[k]);
    }
}

/// 1 where a bit of one of the values is.
pub struct Ors;

impl Combine for Ors {
    ghost extra = { 0 };

    ghost shows = { λ L xs. combined BitOr L 0 xs };

    ghost none = { none_or };

    fn join(partner: &Partner, state: &mut [Plane], brought: &mut [Plane], _spare: &mut Plane) {
        bring_planes(partner, state, brought);
        put_planes::<Or>(state, brought);
    }
}

impl Commute for Ors {
    ghost one = { one_or };

    ghost swapped = { ors_swapped };
}

/// 1 where a bit of an odd number of the values is.
pub struct Xors;

impl Combine for Xors {
    ghost extra = { 0 };

    ghost shows = { λ L xs. combined BitXor L 0 xs };

    ghost none = { none_xor };

    fn join(partner: &Partner, state: &mut [Plane], brought: &mut [Plane], _spare: &mut Plane) {
        bring_planes(partner, state, brought);
        put_planes::<Xor>(state, brought);
    }
}

impl Commute for Xors {
    ghost one = { one_xor };

    ghost swapped = { xors_swapped };
}
