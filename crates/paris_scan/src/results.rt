//! What values combine to, as values of processors.

ghost use Rattle.std.specs.Prelude.{◌≡◌, ℕ, ◌+◌, ◌<◌, ◌≤◌, IfOk, List, None, Some, length};
ghost use Rattle.paris_model.specs.Store.{everywhere};
ghost use Rattle.paris_model.specs.declared.operators.Combiner.TheVariants.{Sum};
ghost use Rattle.paris_field.specs.Numbers.{AllOf, number_at};
ghost use Rattle.paris_scan.specs.Lines.{combined_field, sums_overflow};
ghost use Rattle.paris_scan.specs.Shown.{complement};
ghost use Rattle.paris_scan.specs.Sums.{sum_shown};

use crate::sources::invert_planes;
use paris_field::FieldValue;
use paris_layer::Layer;
use paris_plane::Plane;
use std::alloc::AllocError;

/// What values combine to in each processor, and for sums where the exact sum needs more bits.
#[derive(Debug, Drop)]
pub struct Combined {
    pub value: FieldValue,
    pub overflow: Option<Layer>,
}

/// A value of an operator that has no overflow.
pub(crate) fn without_overflow(value: FieldValue) -> Combined
    ensures { result ≡ record { value = value; overflow = None } }
{
    Combined {
        value,
        overflow: None,
    }
}

/// The value of `vps` processors whose bits are those of the planes, turned. Fails only for want of memory.
pub(crate) fn complement_value(mut planes: Vec<Plane>, vps: usize) -> Result<FieldValue, AllocError>
    requires narrow { length planes.items ≤ 128 }
    requires long { AllOf vps planes.items }
    ensures { IfOk result (λ value. value ≡ record { width = length planes.items; numbers = everywhere vps (λ v. complement (length planes.items) (number_at planes.items v)) }) }
{
    invert_planes(&mut planes);
    let value = FieldValue::from_planes(planes, vps)?;
    Ok(value)
}

/// A plane as a layer, where there is one.
fn as_layer(plane: Option<Plane>) -> Option<Layer>
    ensures { result ≡ plane }
{
    match plane {
        Some(plane) => Some(Layer::from_plane(plane)),
        None => None,
    }
}

/// The sums of `vps` processors, where the plane on top says which of them need more bits. Fails only for want of memory.
pub(crate) fn sum_value(mut planes: Vec<Plane>, vps: usize) -> Result<Combined, AllocError>
    requires some { 0 < length planes.items }
    requires narrow { length planes.items ≤ 129 }
    requires long { AllOf vps planes.items }
    ensures { IfOk result (λ combined. (L : ℕ) (values : ℕ → List ℕ) → length planes.items ≡ L + 1 → ((v : ℕ) → v < vps → number_at planes.items v ≡ sum_shown L (values v))
        → combined ≡ record { value = combined_field Sum L vps values; overflow = Some (sums_overflow L vps values) }) }
{
    let top = planes.pop();
    let value = FieldValue::from_planes(planes, vps)?;
    let overflow = as_layer(top);
    Ok(Combined { value, overflow })
}
