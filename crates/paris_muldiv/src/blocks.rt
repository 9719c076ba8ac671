//! An operation on the numbers of all processors: of those that fit a word quad by quad, four blocks of 64 at a time, and of others block by
//! block.

ghost use Rattle.std.specs.Prelude.{◌≡◌, ◌≢◌, ℕ, ◌+◌, ◌*◌, ◌/◌, ◌%◌, ◌^◌, ◌<◌, ◌≤◌, IfOk, false, length, slice_index, slice_index_or};
ghost use Rattle.paris_model.specs.Elementwise.{binary_overflow, binary_result};
ghost use Rattle.paris_model.specs.Store.{low};
ghost use Rattle.paris_plane.specs.Bits.{word_bit};
ghost use Rattle.paris_field.specs.Numbers.{AllOf, number_at};
ghost use Rattle.paris_alu.specs.Alu.{binary_field, overflow_plane};

use crate::numbers::NumberOp;
use paris_alu::Overflowing;
use paris_field::{
    FieldValue, block_numbers, put_block, put_quad_words, quad_operands, zero_planes,
};
use paris_layer::Layer;
use paris_plane::Plane;
use std::alloc::{AllocError, Global};

/// A word whose bit `i`, which was 0, is this one.
fn with_bit(word: u64, i: usize, bit: bool) -> u64
    requires within { i < 64 }
    requires clear { word_bit word i ≡ false }
    ensures here { word_bit result i ≡ bit }
    ensures others { (j : ℕ) → j ≢ i → word_bit result j ≡ word_bit word j }
{
    word | u64::from(bit) << i
}

/// What the operation makes of the first `count` operands of a block: the results, and a word of where they overflow.
fn block_results<O: NumberOp>(
    bits: u64,
    xs: &[u128; 64],
    ys: &[u128; 64],
    count: usize,
) -> ([u128; 64], u64)
    requires positive { 0 < bits }
    requires narrow { bits ≤ 128 }
    requires within { count ≤ 64 }
    requires xs_fit { (i : ℕ) → i < count → slice_index xs.now i < 2 ^ bits }
    requires ys_fit { (i : ℕ) → i < count → slice_index ys.now i < 2 ^ bits }
    ensures values { (i : ℕ) → i < count → low bits (slice_index result.0 i) ≡ low bits (binary_result O.operator bits (slice_index xs.now i) (slice_index ys.now i) 0 0) }
    ensures overflow { (i : ℕ) → i < count → word_bit result.1 i ≡ binary_overflow O.operator bits (slice_index xs.now i) (slice_index ys.now i) 0 }
{
    let mut results = [0u128; 64];
    let mut word = 0u64;
    for i in 0..count {
        let (result, overflows) = O::apply(bits, xs[i], ys[i]);
        results[i] = result;
        word = with_bit(word, i, overflows);
    }
    (results, word)
}

/// Puts in place of `count` words of a quad from `at` on what the operation makes of them, and gives a word of where it overflows.
fn word_results<O: NumberOp>(
    bits: u64,
    xs: &mut [u64; 256],
    ys: &[u64; 256],
    at: usize,
    count: usize,
) -> u64
    requires positive { 0 < bits }
    requires narrow { bits ≤ 64 }
    requires within { count ≤ 64 }
    requires room { at + 64 ≤ 256 }
    requires xs_fit { (i : ℕ) → i < count → slice_index xs.old (at + i) < 2 ^ bits }
    requires ys_fit { (i : ℕ) → i < count → slice_index ys.now (at + i) < 2 ^ bits }
    ensures values { (i : ℕ) → i < count → low bits (slice_index xs.new (at + i)) ≡ low bits (binary_result O.operator bits (slice_index xs.old (at + i)) (slice_index ys.now (at + i)) 0 0) }
    ensures others { (i : ℕ) → (at ≤ i → at + count ≤ i) → slice_index xs.new i ≡ slice_index xs.old i }
    ensures overflow { (i : ℕ) → i < count → word_bit result i ≡ binary_overflow O.operator bits (slice_index xs.old (at + i)) (slice_index ys.now (at + i)) 0 }
{
    let mut word = 0u64;
    for i in 0..count {
        let (result, overflows) = O::apply_words(bits, xs[at + i], ys[at + i]);
        xs[at + i] = result;
        word = with_bit(word, i, overflows);
    }
    word
}

/// Puts in place of the words of a quad what the operation makes of them, as far as there are processors. Marks where it overflows.
fn quad_results<O: NumberOp>(
    bits: u64,
    xs: &mut [u64; 256],
    ys: &[u64; 256],
    quad: usize,
    overflow: &mut Plane,
)
    requires positive { 0 < bits }
    requires narrow { bits ≤ 64 }
    requires within { 256 * quad < length overflow.old }
    requires xs_fit { (i : ℕ) → i < 256 → 256 * quad + i < length overflow.old → slice_index xs.old i < 2 ^ bits }
    requires ys_fit { (i : ℕ) → i < 256 → 256 * quad + i < length overflow.old → slice_index ys.now i < 2 ^ bits }
    ensures long { length overflow.new ≡ length overflow.old }
    ensures values { (i : ℕ) → i < 256 → 256 * quad + i < length overflow.old → low bits (slice_index xs.new i) ≡ low bits (binary_result O.operator bits (slice_index xs.old i) (slice_index ys.now i) 0 0) }
    ensures overflow { (i : ℕ) → i < 256 → 256 * quad + i < length overflow.old → slice_index_or overflow.new (256 * quad + i) false ≡ binary_overflow O.operator bits (slice_index xs.old i) (slice_index ys.now i) 0 }
    ensures others { (v : ℕ) → v < length overflow.old → v / 256 ≢ quad → slice_index_or overflow.new v false ≡ slice_index_or overflow.old v false }
{
    let rest = overflow.len() - 256 * quad;
    for q in 0..rest.div_ceil(64).min(4) {
        let count = (rest - 64 * q).min(64);
        let word = word_results::<O>(bits, xs, ys, 64 * q, count);
        overflow.set_word(4 * quad + q, word);
    }
}

/// Puts into the processors of a block what the operation makes of their numbers, of up to 128 bits.
fn put_number_results<O: NumberOp>(
    xs: &[Layer],
    ys: &[Layer],
    block: usize,
    values: &mut [Plane],
    overflow: &mut Plane,
)
    requires positive { 0 < length values.old }
    requires narrow { length values.old ≤ 128 }
    requires x_count { length xs.now ≡ length values.old }
    requires y_count { length ys.now ≡ length values.old }
    requires within { 64 * block < length overflow.old }
    requires xs { AllOf (length overflow.old) xs.now }
    requires ys { AllOf (length overflow.old) ys.now }
    requires values { AllOf (length overflow.old) values.old }
    ensures long { length overflow.new ≡ length overflow.old }
    ensures planes { AllOf (length overflow.old) values.new }
    ensures values { (i : ℕ) → i < 64 → 64 * block + i < length overflow.old → number_at values.new (64 * block + i) ≡ low (length values.old) (binary_result O.operator (length values.old) (number_at xs.now (64 * block + i)) (number_at ys.now (64 * block + i)) 0 0) }
    ensures overflow { (i : ℕ) → i < 64 → 64 * block + i < length overflow.old → slice_index_or overflow.new (64 * block + i) false ≡ binary_overflow O.operator (length values.old) (number_at xs.now (64 * block + i)) (number_at ys.now (64 * block + i)) 0 }
    ensures other_values { (v : ℕ) → v < length overflow.old → v / 64 ≢ block → number_at values.new v ≡ number_at values.old v }
    ensures other_bits { (v : ℕ) → v < length overflow.old → v / 64 ≢ block → slice_index_or overflow.new v false ≡ slice_index_or overflow.old v false }
{
    let vps = overflow.len();
    let x = block_numbers(xs, block, vps);
    let y = block_numbers(ys, block, vps);
    let bits = values.len() as u64;
    let (results, word) = block_results::<O>(bits, &x, &y, (vps - 64 * block).min(64));
    put_block(values, &results, block, vps);
    overflow.set_word(block, word);
}

/// Puts into the processors of a quad what the operation makes of their numbers, which fit a word each.
fn put_quad_results<O: NumberOp>(
    xs: &[Layer],
    ys: &[Layer],
    quad: usize,
    values: &mut [Plane],
    overflow: &mut Plane,
)
    requires positive { 0 < length values.old }
    requires narrow { length values.old ≤ 64 }
    requires x_count { length xs.now ≡ length values.old }
    requires y_count { length ys.now ≡ length values.old }
    requires within { 256 * quad < length overflow.old }
    requires xs { AllOf (length overflow.old) xs.now }
    requires ys { AllOf (length overflow.old) ys.now }
    requires values { AllOf (length overflow.old) values.old }
    ensures long { length overflow.new ≡ length overflow.old }
    ensures planes { AllOf (length overflow.old) values.new }
    ensures values { (i : ℕ) → i < 256 → 256 * quad + i < length overflow.old → number_at values.new (256 * quad + i) ≡ low (length values.old) (binary_result O.operator (length values.old) (number_at xs.now (256 * quad + i)) (number_at ys.now (256 * quad + i)) 0 0) }
    ensures overflow { (i : ℕ) → i < 256 → 256 * quad + i < length overflow.old → slice_index_or overflow.new (256 * quad + i) false ≡ binary_overflow O.operator (length values.old) (number_at xs.now (256 * quad + i)) (number_at ys.now (256 * quad + i)) 0 }
    ensures other_values { (v : ℕ) → v < length overflow.old → v / 256 ≢ quad → number_at values.new v ≡ number_at values.old v }
    ensures other_bits { (v : ℕ) → v < length overflow.old → v / 256 ≢ quad → slice_index_or overflow.new v false ≡ slice_index_or overflow.old v false }
{
    let vps = overflow.len();
    let mut x = [0u64; 256];
    let mut y = [0u64; 256];
    quad_operands(xs, ys, quad, vps, &mut x, &mut y);
    quad_results::<O>(values.len() as u64, &mut x, &y, quad, overflow);
    put_quad_words(values, &x, quad, vps);
}

/// Puts into all processors what the operation makes of their numbers, which fit a word each.
fn put_word_results<O: NumberOp>(
    xs: &[Layer],
    ys: &[Layer],
    values: &mut [Plane],
    overflow: &mut Plane,
)
    requires positive { 0 < length values.old }
    requires narrow { length values.old ≤ 64 }
    requires x_count { length xs.now ≡ length values.old }
    requires y_count { length ys.now ≡ length values.old }
    requires xs { AllOf (length overflow.old) xs.now }
    requires ys { AllOf (length overflow.old) ys.now }
    requires values { AllOf (length overflow.old) values.old }
    ensures long { length overflow.new ≡ length overflow.old }
    ensures planes { AllOf (length overflow.old) values.new }
    ensures values { (v : ℕ) → v < length overflow.old → number_at values.new v ≡ low (length values.old) (binary_result O.operator (length values.old) (number_at xs.now v) (number_at ys.now v) 0 0) }
    ensures overflow { (v : ℕ) → v < length overflow.old → slice_index_or overflow.new v false ≡ binary_overflow O.operator (length values.old) (number_at xs.now v) (number_at ys.now v) 0 }
{
    for quad in 0..overflow.len().div_ceil(256) {
        put_quad_results::<O>(xs, ys, quad, values, overflow);
    }
}

/// Puts into all processors what the operation makes of their numbers, of up to 128 bits.
fn put_wide_results<O: NumberOp>(
    xs: &[Layer],
    ys: &[Layer],
    values: &mut [Plane],
    overflow: &mut Plane,
)
    requires positive { 0 < length values.old }
    requires narrow { length values.old ≤ 128 }
    requires x_count { length xs.now ≡ length values.old }
    requires y_count { length ys.now ≡ length values.old }
    requires xs { AllOf (length overflow.old) xs.now }
    requires ys { AllOf (length overflow.old) ys.now }
    requires values { AllOf (length overflow.old) values.old }
    ensures long { length overflow.new ≡ length overflow.old }
    ensures planes { AllOf (length overflow.old) values.new }
    ensures values { (v : ℕ) → v < length overflow.old → number_at values.new v ≡ low (length values.old) (binary_result O.operator (length values.old) (number_at xs.now v) (number_at ys.now v) 0 0) }
    ensures overflow { (v : ℕ) → v < length overflow.old → slice_index_or overflow.new v false ≡ binary_overflow O.operator (length values.old) (number_at xs.now v) (number_at ys.now v) 0 }
{
    for block in 0..overflow.len().div_ceil(64) {
        put_number_results::<O>(xs, ys, block, values, overflow);
    }
}

/// Puts into all processors what the operation makes of their numbers.
fn put_all_results<O: NumberOp>(
    xs: &[Layer],
    ys: &[Layer],
    values: &mut [Plane],
    overflow: &mut Plane,
)
    requires positive { 0 < length values.old }
    requires narrow { length values.old ≤ 128 }
    requires x_count { length xs.now ≡ length values.old }
    requires y_count { length ys.now ≡ length values.old }
    requires xs { AllOf (length overflow.old) xs.now }
    requires ys { AllOf (length overflow.old) ys.now }
    requires values { AllOf (length overflow.old) values.old }
    ensures long { length overflow.new ≡ length overflow.old }
    ensures planes { AllOf (length overflow.old) values.new }
    ensures values { (v : ℕ) → v < length overflow.old → number_at values.new v ≡ low (length values.old) (binary_result O.operator (length values.old) (number_at xs.now v) (number_at ys.now v) 0 0) }
    ensures overflow { (v : ℕ) → v < length overflow.old → slice_index_or overflow.new v false ≡ binary_overflow O.operator (length values.old) (number_at xs.now v) (number_at ys.now v) 0 }
{
    if values.len() <= 64 {
        put_word_results::<O>(xs, ys, values, overflow);
    } else {
        put_wide_results::<O>(xs, ys, values, overflow);
    }
}

/// What the operation makes of the low `bits` bits of two fields.
pub(crate) fn computed<O: NumberOp>(
    alloc: Global,
    x: &FieldValue,
    y: &FieldValue,
    bits: u64,
) -> Result<Overflowing, AllocError>
    requires positive { 0 < bits }
    requires narrow { bits ≤ 128 }
    requires x_width { bits ≤ x.now.width }
    requires y_width { bits ≤ y.now.width }
    requires same { length x.now.numbers ≡ length y.now.numbers }
    ensures value { IfOk result (λ computed. computed.value ≡ binary_field O.operator bits x.now y.now (λ _. 0)) }
    ensures overflow { IfOk result (λ computed. computed.overflow ≡ overflow_plane O.operator bits x.now y.now (λ _. 0)) }
{
    let vps = x.len();
    let mut planes = zero_planes(alloc, bits as usize, vps)?;
    let mut overflow = Plane::zeros(alloc, vps)?;
    put_all_results::<O>(x.low(bits), y.low(bits), &mut planes, &mut overflow);
    let value = FieldValue::from_planes(planes, vps)?;
    Ok(Overflowing {
        value,
        overflow: Layer::from_plane(overflow),
    })
}
