//! The greatest of values.

ghost use Rattle.std.specs.Prelude.{◌≡◌, ℕ, ◌<◌, false, length, nat_lt, slice_index_or};
ghost use Rattle.paris_model.specs.Combine.{combined};
ghost use Rattle.paris_model.specs.declared.operators.Combiner.TheVariants.{Maximum};
ghost use Rattle.paris_field.specs.Numbers.{AllOf, number_at};
ghost use Rattle.paris_scan.specs.Laws.{maxima_swapped, none_maximum, one_maximum};

use crate::combine::{Combine, Commute};
use crate::partner::{Partner, bring_planes};
use paris_field::merge_planes;
use paris_plane::{Borrow, Plane};

/// Puts a 1 where the number of `x` is below that of `y`, and a 0 elsewhere.
pub(crate) fn mark_below(x: &[Plane], y: &[Plane], below: &mut Plane)
    requires same { length x.now ≡ length y.now }
    requires x_planes { AllOf (length below.old) x.now }
    requires y_planes { AllOf (length below.old) y.now }
    ensures long { length below.new ≡ length below.old }
    ensures at { (v : ℕ) → v < length below.old → slice_index_or below.new v false ≡ nat_lt (number_at x.now v) (number_at y.now v) }
{
    below.fill(false);
    for k in 0..x.len() {
        below.put_triple::<Borrow>(&x[k], &y[k]);
    }
}

/// The greatest value.
pub struct Maxima;

impl Combine for Maxima {
    ghost extra = { 0 };

    ghost shows = { λ L xs. combined Maximum L 0 xs };

    ghost none = { none_maximum };

    fn join(partner: &Partner, state: &mut [Plane], brought: &mut [Plane], spare: &mut Plane) {
        bring_planes(partner, state, brought);
        mark_below(state, brought, spare);
        merge_planes(state, spare, brought, brought.len());
    }
}

impl Commute for Maxima {
    ghost one = { one_maximum };

    ghost swapped = { maxima_swapped };
}
