//! What the numbers of the processors of a mask in a span come to, from the bits of each plane.

ghost use Rattle.std.specs.Prelude.{◌≡◌, ◌≤◌, ◌<◌, ◌+◌, ◌*◌, ◌%◌, ◌^◌, ℕ, length, sum};
ghost use Rattle.std.specs.List.{range_with_len};
ghost use Rattle.paris_model.specs.declared.operators.Combiner.TheVariants.{BitOr, BitXor, Maximum};
ghost use Rattle.paris_model.specs.Combine.{combined};
ghost use Rattle.paris_model.specs.Lines.{values_where};
ghost use Rattle.paris_field.specs.Numbers.{AllOf, has, number_at};

use crate::counts::{count_with, narrowed};
use paris_layer::Layer;
use paris_plane::Plane;

/// The sum of the numbers of the processors of the mask among the `count` from `start` on.
pub fn sum_of(planes: &[Layer], mask: &Plane, start: usize, count: usize) -> u128
    requires narrow { length planes.now ≤ 96 }
    requires long { AllOf (length mask.now) planes.now }
    requires start { start % 64 ≡ 0 }
    requires whole { count % 64 ≡ 0 }
    requires within { start + count ≤ length mask.now }
    requires few { count ≤ 2 ^ 16 }
    ensures value { result ≡ sum (values_where (has mask.now) (number_at planes.now) (range_with_len start count)) }
    ensures small { result ≤ count * 2 ^ 96 }
{
    let mut total = 0u128;
    for k in (0..planes.len()).rev() {
        total = 2 * total + u128::from(count_with(&planes[k], mask, start, count));
    }
    total
}

/// A 1 in each digit where a number of the processors of the mask among the `count` from `start` on has one.
pub fn or_of(planes: &[Layer], mask: &Plane, start: usize, count: usize) -> u128
    requires narrow { length planes.now ≤ 128 }
    requires long { AllOf (length mask.now) planes.now }
    requires start { start % 64 ≡ 0 }
    requires whole { count % 64 ≡ 0 }
    requires within { start + count ≤ length mask.now }
    ensures value { result ≡ combined BitOr (length planes.now) 0 (values_where (has mask.now) (number_at planes.now) (range_with_len start count)) }
    ensures fits { result < 2 ^ length planes.now }
{
    let mut total = 0u128;
    for k in (0..planes.len()).rev() {
        let ones = count_with(&planes[k], mask, start, count);
        total = 2 * total + u128::from(ones.min(1));
    }
    total
}

/// A 1 in each digit where an odd number of the processors of the mask among the `count` from `start` on have one.
pub fn xor_of(planes: &[Layer], mask: &Plane, start: usize, count: usize) -> u128
    requires narrow { length planes.now ≤ 128 }
    requires long { AllOf (length mask.now) planes.now }
    requires start { start % 64 ≡ 0 }
    requires whole { count % 64 ≡ 0 }
    requires within { start + count ≤ length mask.now }
    ensures value { result ≡ combined BitXor (length planes.now) 0 (values_where (has mask.now) (number_at planes.now) (range_with_len start count)) }
    ensures fits { result < 2 ^ length planes.now }
{
    let mut total = 0u128;
    for k in (0..planes.len()).rev() {
        let ones = count_with(&planes[k], mask, start, count);
        total = 2 * total + u128::from(ones % 2);
    }
    total
}

/// The greatest number of the candidates among the `count` processors from `start` on, and 0 where there are none. From the highest plane
/// down, those of them fall out that have a 0 where others have a 1.
pub fn maximum_of(planes: &[Layer], candidates: &mut Plane, start: usize, count: usize) -> u128
    requires narrow { length planes.now ≤ 128 }
    requires long { AllOf (length candidates.old) planes.now }
    requires start { start % 64 ≡ 0 }
    requires whole { count % 64 ≡ 0 }
    requires within { start + count ≤ length candidates.old }
    ensures value { result ≡ combined Maximum (length planes.now) 0 (values_where (has candidates.old) (number_at planes.now) (range_with_len start count)) }
    ensures fits { result < 2 ^ length planes.now }
    ensures long { length candidates.new ≡ length candidates.old }
    ensures behind { (v : ℕ) → start + count ≤ v → v < length candidates.old → has candidates.new v ≡ has candidates.old v }
{
    let mut total = 0u128;
    for k in (0..planes.len()).rev() {
        let found = narrowed(candidates, &planes[k], start, count);
        total = 2 * total + u128::from(found);
    }
    total
}
