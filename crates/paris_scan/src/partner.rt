//! Which processors' bits come to which, in a turn.

ghost use Rattle.std.specs.Prelude.{◌≡◌, ℕ, ◌<◌, false, length, slice_index_or};
ghost use Rattle.paris_field.specs.Numbers.{AllOf, has, number_at, plane_at};
ghost use Rattle.paris_scan.specs.Brings.{Among, Brings};

use crate::moves::move_cut;
use paris_geometry::Direction;
use paris_plane::Plane;

/// The processor whose bits come to each one.
#[derive(Clone, Copy)]
pub enum Partner<'a> {
    /// The one that lies `by` before it in the direction, and none where `begun` has a 1.
    Before {
        direction: Direction,
        by: usize,
        begun: &'a Plane,
    },
    /// The one whose number differs in the binary digit of weight `distance`.
    Across {
        distance: usize,
    },
}

/// Puts into each processor the bit of its partner, or 0 where it has none.
pub(crate) fn bring(partner: &Partner, source: &Plane, out: &mut Plane)
    requires partner { Among (length source.now) partner.now }
    requires out { length out.old ≡ length source.now }
    ensures long { length out.new ≡ length source.now }
    ensures brought { (v : ℕ) → v < length source.now → Brings false partner.now (length source.now) (has source.now) v (slice_index_or out.new v false) }
{
    match partner {
        Partner::Before {
            direction,
            by,
            begun,
        } => move_cut(*direction, *by, source, begun, out),
        Partner::Across { distance } => out.exchange_from(source, *distance),
    }
}

/// Puts into each processor of `out` the number of its partner, or 0 where it has none.
pub(crate) fn bring_planes(partner: &Partner, source: &[Plane], out: &mut [Plane])
    requires same { length out.old ≡ length source.now }
    requires partner { (k : ℕ) → k < length source.now → Among (length (plane_at source.now k)) partner.now }
    requires out { (k : ℕ) → k < length source.now → length (plane_at out.old k) ≡ length (plane_at source.now k) }
    ensures long { (k : ℕ) → k < length source.now → length (plane_at out.new k) ≡ length (plane_at source.now k) }
    ensures brought { (n v : ℕ) → AllOf n source.now → v < n → Brings 0 partner.now n (number_at source.now) v (number_at out.new v) }
{
    for k in 0..source.len() {
        bring(partner, &source[k], &mut out[k]);
    }
}
