//! Values and planes that are alike in all processors of a line, where these follow one another.

ghost use Rattle.std.specs.Prelude.{◌≡◌, ◌<◌, ◌≤◌, ◌+◌, ◌*◌, ◌/◌, ◌%◌, ◌^◌, ◌==◌, ℕ, IfOk, length, slice_index};
ghost use Rattle.paris_field.specs.Numbers.{AllOf, bits_everywhere, has, number_at};
ghost use Rattle.paris_scan.specs.Adjacent.{lines_field};

use paris_field::FieldValue;
use paris_plane::{Plane, word_of};
use std::alloc::{AllocError, Global};

/// Writes one bit for each of the `count` processors from `start` on.
fn put_span(plane: &mut Plane, start: usize, count: usize, bit: bool)
    requires start { start % 64 ≡ 0 }
    requires whole { count % 64 ≡ 0 }
    requires within { start + count ≤ length plane.old }
    ensures long { length plane.new ≡ length plane.old }
    ensures put { (v : ℕ) → start ≤ v → v < start + count → has plane.new v ≡ bit }
    ensures before { (v : ℕ) → v < start → has plane.new v ≡ has plane.old v }
    ensures behind { (v : ℕ) → start + count ≤ v → v < length plane.old → has plane.new v ≡ has plane.old v }
{
    let first = start / 64;
    let word = word_of(bit);
    for i in 0..count / 64 {
        plane.set_word(first + i, word);
    }
}

/// The plane of `vps` processors in lines of `count` each that has the bit of a line in each of its processors.
pub(crate) fn line_plane(
    alloc: Global,
    bits: &[bool],
    count: usize,
    vps: usize,
) -> Result<Plane, AllocError>
    requires some { 0 < count }
    requires whole { count % 64 ≡ 0 }
    requires all { length bits.now * count ≡ vps }
    ensures { IfOk result (λ plane. plane ≡ bits_everywhere vps (λ v. has bits.now (v / count))) }
{
    let mut plane = Plane::zeros(alloc, vps)?;
    for line in 0..bits.len() {
        put_span(&mut plane, line * count, count, bits[line]);
    }
    Ok(plane)
}

/// Bit `k` of each number.
fn bits_of(alloc: Global, numbers: &[u128], k: u64) -> Result<Vec<bool>, AllocError>
    requires { k < 128 }
    ensures count { IfOk result (λ bits. length bits.items ≡ length numbers.now) }
    ensures values { IfOk result (λ bits. (i : ℕ) → i < length numbers.now → has bits.items i ≡ (slice_index numbers.now i / 2 ^ k % 2 == 1)) }
{
    let mut bits = Vec::with_capacity(alloc, numbers.len())?;
    for number in numbers {
        bits.push((*number >> k) % 2 == 1)?;
    }
    Ok(bits)
}

/// The planes of `vps` processors in lines of `count` each that have the number of a line in each of its processors.
fn line_planes(
    alloc: Global,
    width: u64,
    numbers: &[u128],
    count: usize,
    vps: usize,
) -> Result<Vec<Plane>, AllocError>
    requires narrow { width ≤ 128 }
    requires some { 0 < count }
    requires whole { count % 64 ≡ 0 }
    requires all { length numbers.now * count ≡ vps }
    ensures width { IfOk result (λ planes. length planes.items ≡ width) }
    ensures long { IfOk result (λ planes. AllOf vps planes.items) }
    ensures numbers { IfOk result (λ planes. (v : ℕ) → v < vps → number_at planes.items v ≡ slice_index numbers.now (v / count) % 2 ^ width) }
{
    let mut planes = Vec::with_capacity(alloc, width as usize)?;
    for k in 0..width {
        let bits = bits_of(alloc, numbers, k)?;
        let plane = line_plane(alloc, &bits, count, vps)?;
        planes.push(plane)?;
    }
    Ok(planes)
}

/// The value of this width in bits, of `vps` processors in lines of `count` each, that has the number of a line in each of its processors.
pub(crate) fn line_value(
    alloc: Global,
    width: u64,
    numbers: &[u128],
    count: usize,
    vps: usize,
) -> Result<FieldValue, AllocError>
    requires narrow { width ≤ 128 }
    requires some { 0 < count }
    requires whole { count % 64 ≡ 0 }
    requires all { length numbers.now * count ≡ vps }
    requires fit { (i : ℕ) → i < length numbers.now → slice_index numbers.now i < 2 ^ width }
    ensures { IfOk result (λ value. value ≡ lines_field width count vps numbers.now) }
{
    if numbers.len() == 1 {
        return FieldValue::constant(alloc, width, numbers[0], vps);
    }
    let planes = line_planes(alloc, width, numbers, count, vps)?;
    let value = FieldValue::from_planes(planes, vps)?;
    Ok(value)
}
