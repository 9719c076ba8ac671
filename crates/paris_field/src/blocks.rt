//! Numbers in blocks of 64 processors: 64 planes of a block are a square of bits, whose turn has a word of each processor's number.

ghost use Rattle.std.specs.Prelude.{◌≡◌, ◌≢◌, ℕ, ◌+◌, ◌*◌, ◌/◌, ◌%◌, ◌^◌, ◌<◌, ◌≤◌, IfOk, OnOk, false, length, min, slice_index, slice_index_or, take, []};
ghost use Rattle.paris_model.specs.Store.{low};
ghost use Rattle.paris_plane.specs.Bits.{word_bit};
ghost use Rattle.paris_field.specs.Numbers.{AllOf, number_at, numbers, plane_at};

use crate::quads::whole_quad_words;
use crate::transpose::{transpose8, transpose16, transpose32, transpose64};
use paris_layer::Layer;
use paris_plane::Plane;
use std::alloc::{AllocError, Global};

/// One more than the greatest word.
const WORD: u128 = 1 << 64;

/// One more than the greatest number of half a word.
pub(crate) const HALF: u64 = 1 << 32;

/// The bits of a plane in the processors of a block, and zeros where there is no such plane.
pub(crate) fn word_of(layers: &[Layer], k: usize, block: usize, vps: usize) -> u64
    requires within { 64 * block < vps }
    requires long { AllOf vps layers.now }
    ensures { (i : ℕ) → i < 64 → 64 * block + i < vps → word_bit result i ≡ slice_index_or (plane_at layers.now k) (64 * block + i) false }
{
    if k < layers.len() {
        layers[k].word(block)
    } else {
        0
    }
}

/// The words of a block of each of the first 64 planes, and zeros past the last plane.
fn rows_of(layers: &[Layer], block: usize, vps: usize) -> [u64; 64]
    requires within { 64 * block < vps }
    requires long { AllOf vps layers.now }
    ensures { (k i : ℕ) → k < 64 → i < 64 → 64 * block + i < vps → word_bit (slice_index result k) i ≡ slice_index_or (plane_at layers.now k) (64 * block + i) false }
{
    let mut rows = [0u64; 64];
    for k in 0..layers.len().min(64) {
        rows[k] = layers[k].word(block);
    }
    rows
}

/// Puts `W` bits of each of the first `W` words, those from bit `FROM` on, into as many numbers from place `FROM` on.
fn put_part<const W: usize, const FROM: usize>(rows: &[u64; 64], numbers: &mut [u64; 64])
    requires within { FROM + W ≤ 64 }
    requires narrow { W < 64 }
    ensures part { (j : ℕ) → j < W → slice_index numbers.new (FROM + j) ≡ slice_index rows.now j / 2 ^ FROM % 2 ^ W }
    ensures others { (i : ℕ) → (FROM ≤ i → FROM + W ≤ i) → slice_index numbers.new i ≡ slice_index numbers.old i }
{
    for j in 0..W {
        numbers[FROM + j] = (rows[j] >> FROM) % (1 << W);
    }
}

/// Eight numbers of 8 bits from each of 8 words, those of the lowest bits of each word first.
fn eighths(rows: &[u64; 64]) -> [u64; 64]
    ensures { (i : ℕ) → i < 64 → slice_index result i ≡ slice_index rows.now (i % 8) / 2 ^ (i / 8 * 8) % 2 ^ 8 }
{
    let mut numbers = [0u64; 64];
    put_part::<8, 0>(rows, &mut numbers);
    put_part::<8, 8>(rows, &mut numbers);
    put_part::<8, 16>(rows, &mut numbers);
    put_part::<8, 24>(rows, &mut numbers);
    put_part::<8, 32>(rows, &mut numbers);
    put_part::<8, 40>(rows, &mut numbers);
    put_part::<8, 48>(rows, &mut numbers);
    put_part::<8, 56>(rows, &mut numbers);
    numbers
}

/// Four numbers of 16 bits from each of 16 words, those of the lowest bits of each word first.
pub(crate) fn quarters(rows: &[u64; 64]) -> [u64; 64]
    ensures { (i : ℕ) → i < 64 → slice_index result i ≡ slice_index rows.now (i % 16) / 2 ^ (i / 16 * 16) % 2 ^ 16 }
{
    let mut numbers = [0u64; 64];
    put_part::<16, 0>(rows, &mut numbers);
    put_part::<16, 16>(rows, &mut numbers);
    put_part::<16, 32>(rows, &mut numbers);
    put_part::<16, 48>(rows, &mut numbers);
    numbers
}

/// Two numbers of 32 bits from each of 32 words, those of the low halves first.
fn halves(rows: &[u64; 64]) -> [u64; 64]
    ensures { (i : ℕ) → i < 64 → slice_index result i ≡ slice_index rows.now (i % 32) / 2 ^ (i / 32 * 32) % 2 ^ 32 }
{
    let mut numbers = [0u64; 64];
    put_part::<32, 0>(rows, &mut numbers);
    put_part::<32, 32>(rows, &mut numbers);
    numbers
}

/// The number of each processor of a block as a word, where the planes hold its bits, up to 8 of them.
fn byte_bits(layers: &[Layer], block: usize, vps: usize) -> [u64; 64]
    requires narrow { length layers.now ≤ 8 }
    requires within { 64 * block < vps }
    requires long { AllOf vps layers.now }
    ensures { (i k : ℕ) → i < 64 → k < 64 → 64 * block + i < vps → word_bit (slice_index result i) k ≡ slice_index_or (plane_at layers.now k) (64 * block + i) false }
{
    let mut rows = rows_of(layers, block, vps);
    transpose8(&mut rows);
    eighths(&rows)
}

/// The number of each processor of a block as a word, where the planes hold its bits, up to 16 of them.
fn few_bits(layers: &[Layer], block: usize, vps: usize) -> [u64; 64]
    requires narrow { length layers.now ≤ 16 }
    requires within { 64 * block < vps }
    requires long { AllOf vps layers.now }
    ensures { (i k : ℕ) → i < 64 → k < 64 → 64 * block + i < vps → word_bit (slice_index result i) k ≡ slice_index_or (plane_at layers.now k) (64 * block + i) false }
{
    let mut rows = rows_of(layers, block, vps);
    transpose16(&mut rows);
    quarters(&rows)
}

/// The number of each processor of a block as a word, where the planes hold its bits, up to 32 of them.
fn half_bits(layers: &[Layer], block: usize, vps: usize) -> [u64; 64]
    requires narrow { length layers.now ≤ 32 }
    requires within { 64 * block < vps }
    requires long { AllOf vps layers.now }
    ensures { (i k : ℕ) → i < 64 → k < 64 → 64 * block + i < vps → word_bit (slice_index result i) k ≡ slice_index_or (plane_at layers.now k) (64 * block + i) false }
{
    let mut rows = rows_of(layers, block, vps);
    transpose32(&mut rows);
    halves(&rows)
}

/// A word of the number of each processor of a block, of which the planes hold the bits, up to 64 of them.
fn low_words(layers: &[Layer], block: usize, vps: usize) -> [u64; 64]
    requires within { 64 * block < vps }
    requires long { AllOf vps layers.now }
    ensures { (i k : ℕ) → i < 64 → k < 64 → 64 * block + i < vps → word_bit (slice_index result i) k ≡ slice_index_or (plane_at layers.now k) (64 * block + i) false }
{
    if layers.len() <= 8 {
        return byte_bits(layers, block, vps);
    }
    if layers.len() <= 16 {
        return few_bits(layers, block, vps);
    }
    if layers.len() <= 32 {
        return half_bits(layers, block, vps);
    }
    let mut rows = rows_of(layers, block, vps);
    transpose64(&mut rows);
    rows
}

/// Each word is below two to the 64th, which a proof knows of words behind a reference.
pub(crate) fn words_fit(words: &[u64])
    ensures { (i : ℕ) → slice_index words.now i < 2 ^ 64 }
{}

/// The number of each processor of a block as a word, the first processor's first. Those past the last processor mean nothing.
pub fn block_words(layers: &[Layer], block: usize, vps: usize) -> [u64; 64]
    requires narrow { length layers.now ≤ 64 }
    requires within { 64 * block < vps }
    requires long { AllOf vps layers.now }
    ensures { (i : ℕ) → i < 64 → 64 * block + i < vps → slice_index result i ≡ number_at layers.now (64 * block + i) }
{
    let words = low_words(layers, block, vps);
    words_fit(&words);
    words
}

/// The number of each processor of a block, the first processor's first. Those past the last processor mean nothing.
pub fn block_numbers(layers: &[Layer], block: usize, vps: usize) -> [u128; 64]
    requires narrow { length layers.now ≤ 128 }
    requires within { 64 * block < vps }
    requires long { AllOf vps layers.now }
    ensures { (i : ℕ) → i < 64 → 64 * block + i < vps → slice_index result i ≡ number_at layers.now (64 * block + i) }
{
    let low = low_words(layers, block, vps);
    let high = low_words(&layers[layers.len().min(64)..], block, vps);
    let mut numbers = [0u128; 64];
    for i in 0..64usize {
        numbers[i] = high[i] as u128 * WORD + low[i] as u128;
    }
    numbers
}

/// Adds the numbers of a block to those of the blocks below.
fn push_block(
    list: &mut Vec<u128>,
    layers: &[Layer],
    block: usize,
    vps: usize,
) -> Result<(), AllocError>
    requires narrow { length layers.now ≤ 128 }
    requires within { 64 * block < vps }
    requires long { AllOf vps layers.now }
    requires below { list.old.items ≡ numbers (64 * block) layers.now }
    ensures { OnOk result (list.new.items ≡ numbers (min (64 * block + 64) vps) layers.now) }
{
    let block_numbers = block_numbers(layers, block, vps);
    let count = (vps - 64 * block).min(64);
    list.extend_from_slice(&block_numbers[..count])?;
    Ok(())
}

/// The numbers of `vps` processors, block by block.
pub fn numbers_in(alloc: Global, layers: &[Layer], vps: usize) -> Result<Vec<u128>, AllocError>
    requires narrow { length layers.now ≤ 128 }
    requires long { AllOf vps layers.now }
    ensures { IfOk result (λ list. list.items ≡ numbers vps layers.now) }
{
    let mut list = Vec::with_capacity(alloc, vps)?;
    for block in 0..vps.div_ceil(64) {
        push_block(&mut list, layers, block, vps)?;
    }
    Ok(list)
}

/// Adds the numbers of a block, each a word, to those of the blocks below.
fn push_words(
    list: &mut Vec<u64>,
    layers: &[Layer],
    block: usize,
    vps: usize,
) -> Result<(), AllocError>
    requires narrow { length layers.now ≤ 64 }
    requires within { 64 * block < vps }
    requires long { AllOf vps layers.now }
    requires below { list.old.items ≡ numbers (64 * block) layers.now }
    ensures { OnOk result (list.new.items ≡ numbers (min (64 * block + 64) vps) layers.now) }
{
    let words = block_words(layers, block, vps);
    let count = (vps - 64 * block).min(64);
    list.extend_from_slice(&words[..count])?;
    Ok(())
}

/// Adds the numbers of a quad, each a word, to those of the processors below.
fn push_quad(
    list: &mut Vec<u64>,
    layers: &[Layer],
    quad: usize,
    vps: usize,
) -> Result<(), AllocError>
    requires narrow { length layers.now ≤ 64 }
    requires within { 256 * quad + 256 ≤ vps }
    requires long { AllOf vps layers.now }
    requires below { list.old.items ≡ numbers (256 * quad) layers.now }
    ensures { OnOk result (list.new.items ≡ numbers (256 * quad + 256) layers.now) }
{
    let mut words = [0u64; 256];
    whole_quad_words(layers, quad, vps, &mut words);
    list.extend_from_slice(&words)?;
    Ok(())
}

/// Puts the numbers of the first quads, each a word, into an empty list.
fn push_quads(
    list: &mut Vec<u64>,
    layers: &[Layer],
    quads: usize,
    vps: usize,
) -> Result<(), AllocError>
    requires narrow { length layers.now ≤ 64 }
    requires within { 256 * quads ≤ vps }
    requires long { AllOf vps layers.now }
    requires empty { list.old.items ≡ [] }
    ensures { OnOk result (list.new.items ≡ numbers (256 * quads) layers.now) }
{
    for quad in 0..quads {
        push_quad(list, layers, quad, vps)?;
    }
    Ok(())
}

/// How many of the first quads are turned whole. None are where the planes of a block lie in squares of 16 by 16 bits.
pub(crate) fn whole_quads(width: usize, vps: usize) -> usize
    ensures { 256 * result ≤ vps }
{
    if width <= 16 { 0 } else { vps / 256 }
}

/// The numbers of `vps` processors, each a word: quad by quad, and then block by block.
pub fn words_in(alloc: Global, layers: &[Layer], vps: usize) -> Result<Vec<u64>, AllocError>
    requires narrow { length layers.now ≤ 64 }
    requires long { AllOf vps layers.now }
    ensures { IfOk result (λ list. list.items ≡ numbers vps layers.now) }
{
    let mut list = Vec::with_capacity(alloc, vps)?;
    let quads = whole_quads(layers.len(), vps);
    push_quads(&mut list, layers, quads, vps)?;
    for block in 4 * quads..vps.div_ceil(64) {
        push_words(&mut list, layers, block, vps)?;
    }
    Ok(list)
}

/// A word of each of the first 64 numbers: the 64 bits from bit `from` on.
fn words_from(numbers: &[u128], from: u32) -> [u64; 64]
    requires narrow { from < 128 }
    ensures { (i : ℕ) → i < 64 → i < length numbers.now → slice_index result i ≡ slice_index numbers.now i / 2 ^ from % 2 ^ 64 }
{
    let mut words = [0u64; 64];
    for i in 0..numbers.len().min(64) {
        words[i] = ((numbers[i] >> from) % WORD) as u64;
    }
    words
}

/// The lowest 16 bits of four words, side by side, those of the first the lowest.
fn joined(first: u64, second: u64, third: u64, fourth: u64) -> u64
    ensures { result ≡ ((fourth % 2 ^ 16 * 2 ^ 16 + third % 2 ^ 16) * 2 ^ 16 + second % 2 ^ 16) * 2 ^ 16 + first % 2 ^ 16 }
{
    let high = fourth % 65536 * 65536 + third % 65536;
    let low = second % 65536 * 65536 + first % 65536;
    high * 65536 * 65536 + low
}

/// The lowest 16 bits of 64 words, four side by side in each of 16 words.
fn side_by_side(words: &[u64; 64]) -> [u64; 64]
    ensures { (j i : ℕ) → j < 16 → i < 64 → word_bit (slice_index result j) i ≡ word_bit (slice_index words.now (i / 16 * 16 + j)) (i % 16) }
{
    let mut rows = [0u64; 64];
    for j in 0..16usize {
        rows[j] = joined(words[j], words[16 + j], words[32 + j], words[48 + j]);
    }
    rows
}

/// The lowest 32 bits of 64 words, two side by side in each of 32 words.
fn two_by_two(words: &[u64; 64]) -> [u64; 64]
    ensures { (j i : ℕ) → j < 32 → i < 64 → word_bit (slice_index result j) i ≡ word_bit (slice_index words.now (i / 32 * 32 + j)) (i % 32) }
{
    let mut rows = [0u64; 64];
    for j in 0..32usize {
        rows[j] = words[32 + j] % HALF * HALF + words[j] % HALF;
    }
    rows
}

/// The lowest `count` bits of 64 words, up to 64, turned about the diagonal.
fn turned(words: [u64; 64], count: usize) -> [u64; 64]
    requires { count ≤ 64 }
    ensures { (k i : ℕ) → k < count → i < 64 → word_bit (slice_index result k) i ≡ word_bit (slice_index words i) k }
{
    if count <= 16 {
        let mut few = side_by_side(&words);
        transpose16(&mut few);
        return few;
    }
    if count <= 32 {
        let mut some = two_by_two(&words);
        transpose32(&mut some);
        return some;
    }
    let mut rows = words;
    transpose64(&mut rows);
    rows
}

/// Puts a word of each processor of a block into the planes from plane `from` on, up to 64 of them.
pub(crate) fn put_rows(
    planes: &mut [Plane],
    words: [u64; 64],
    block: usize,
    from: usize,
    vps: usize,
)
    requires within { 64 * block < vps }
    requires long { AllOf vps planes.old }
    ensures long { AllOf vps planes.new }
    ensures bits { (k : ℕ) → k < 64 → from + k < length planes.old → (i : ℕ) → i < 64 → 64 * block + i < vps → slice_index_or (plane_at planes.new (from + k)) (64 * block + i) false ≡ word_bit (slice_index words i) k }
    ensures low { (k : ℕ) → k < from → plane_at planes.new k ≡ plane_at planes.old k }
    ensures others { (k : ℕ) → k < length planes.old → (v : ℕ) → v < vps → v / 64 ≢ block → slice_index_or (plane_at planes.new k) v false ≡ slice_index_or (plane_at planes.old k) v false }
{
    let count = planes.len().saturating_sub(from).min(64);
    let rows = turned(words, count);
    for k in 0..count {
        planes[from + k].set_word(block, rows[k]);
    }
}

/// Puts the bits from bit `from` on of the numbers of a block into the planes from there on, up to 64 of them.
fn put_words(planes: &mut [Plane], numbers: &[u128], block: usize, from: usize, vps: usize)
    requires narrow { from < 128 }
    requires within { 64 * block < vps }
    requires whole { min (64 * block + 64) vps ≤ 64 * block + length numbers.now }
    requires long { AllOf vps planes.old }
    ensures long { AllOf vps planes.new }
    ensures bits { (k : ℕ) → k < 64 → from + k < length planes.old → (i : ℕ) → i < 64 → 64 * block + i < vps → slice_index_or (plane_at planes.new (from + k)) (64 * block + i) false ≡ word_bit (slice_index numbers.now i) (from + k) }
    ensures low { (k : ℕ) → k < from → plane_at planes.new k ≡ plane_at planes.old k }
    ensures others { (k : ℕ) → k < length planes.old → (v : ℕ) → v < vps → v / 64 ≢ block → slice_index_or (plane_at planes.new k) v false ≡ slice_index_or (plane_at planes.old k) v false }
{
    let words = words_from(numbers, from as u32);
    put_rows(planes, words, block, from, vps);
}

/// Puts words, the first processor's first, into the processors of a block, as far as their bits have planes.
pub fn put_block_words(planes: &mut [Plane], words: [u64; 64], block: usize, vps: usize)
    requires narrow { length planes.old ≤ 64 }
    requires within { 64 * block < vps }
    requires long { AllOf vps planes.old }
    ensures long { AllOf vps planes.new }
    ensures numbers { (i : ℕ) → i < 64 → 64 * block + i < vps → number_at planes.new (64 * block + i) ≡ low (length planes.old) (slice_index words i) }
    ensures others { (v : ℕ) → v < vps → v / 64 ≢ block → number_at planes.new v ≡ number_at planes.old v }
{
    put_rows(planes, words, block, 0, vps);
}

/// Puts numbers into the processors of a block, as far as their bits have planes.
fn put_bits(planes: &mut [Plane], numbers: &[u128], block: usize, vps: usize)
    requires narrow { length planes.old ≤ 128 }
    requires within { 64 * block < vps }
    requires whole { min (64 * block + 64) vps ≤ 64 * block + length numbers.now }
    requires long { AllOf vps planes.old }
    ensures long { AllOf vps planes.new }
    ensures bits { (k : ℕ) → k < length planes.old → (i : ℕ) → i < 64 → 64 * block + i < vps → slice_index_or (plane_at planes.new k) (64 * block + i) false ≡ word_bit (slice_index numbers.now i) k }
    ensures others { (k : ℕ) → k < length planes.old → (v : ℕ) → v < vps → v / 64 ≢ block → slice_index_or (plane_at planes.new k) v false ≡ slice_index_or (plane_at planes.old k) v false }
{
    put_words(planes, numbers, block, 0, vps);
    if planes.len() <= 64 {
        return;
    }
    put_words(planes, numbers, block, 64, vps);
}

/// Puts numbers, the first processor's first, into the processors of a block, as far as their bits have planes.
pub fn put_block(planes: &mut [Plane], numbers: &[u128], block: usize, vps: usize)
    requires narrow { length planes.old ≤ 128 }
    requires within { 64 * block < vps }
    requires whole { min (64 * block + 64) vps ≤ 64 * block + length numbers.now }
    requires long { AllOf vps planes.old }
    ensures long { AllOf vps planes.new }
    ensures numbers { (i : ℕ) → i < 64 → 64 * block + i < vps → number_at planes.new (64 * block + i) ≡ low (length planes.old) (slice_index numbers.now i) }
    ensures others { (v : ℕ) → v < vps → v / 64 ≢ block → number_at planes.new v ≡ number_at planes.old v }
{
    put_bits(planes, numbers, block, vps);
}

/// Puts a number into each processor, block by block, as far as its bits have planes.
pub fn put_all(planes: &mut [Plane], list: &[u128])
    requires narrow { length planes.old ≤ 128 }
    requires long { AllOf (length list.now) planes.old }
    ensures long { AllOf (length list.now) planes.new }
    ensures numbers { (v : ℕ) → v < length list.now → number_at planes.new v ≡ low (length planes.old) (slice_index list.now v) }
{
    for block in 0..list.len().div_ceil(64) {
        put_block(planes, &list[64 * block..], block, list.len());
    }
}
