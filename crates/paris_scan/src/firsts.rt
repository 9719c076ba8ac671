//! The first of values.

ghost use Rattle.paris_scan.specs.Firsts.{first_shown};
ghost use Rattle.paris_scan.specs.Laws.{none_first};

use crate::combine::Combine;
use crate::partner::{Partner, bring_planes};
use paris_field::merge_planes;
use paris_plane::Plane;

/// The first value, with a plane on top that says where there is one.
pub struct Firsts;

impl Combine for Firsts {
    ghost extra = { 1 };

    ghost shows = { first_shown };

    ghost none = { none_first };

    fn join(partner: &Partner, state: &mut [Plane], brought: &mut [Plane], _spare: &mut Plane) {
        let top = state.len() - 1;
        bring_planes(partner, state, brought);
        let earlier: &[Plane] = brought;
        merge_planes(state, &earlier[top], earlier, earlier.len());
    }
}
