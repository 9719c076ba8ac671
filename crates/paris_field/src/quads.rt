//! Numbers of one word each in quads: four neighbouring blocks of 64 processors, whose squares of bits are turned together.

ghost use Rattle.std.specs.Prelude.{◌≡◌, ◌≢◌, ℕ, ◌+◌, ◌*◌, ◌/◌, ◌%◌, ◌^◌, ◌<◌, ◌≤◌, IsTrue, false, length, slice_index, slice_index_or, []};
ghost use Rattle.paris_model.specs.Store.{low};
ghost use Rattle.paris_plane.specs.Bits.{word_bit};
ghost use Rattle.paris_field.specs.Numbers.{AllOf, number_at, plane_at};
ghost use Rattle.paris_field.specs.Square.{FourLanes, lane_bit};

use crate::blocks::{HALF, block_words, words_fit};
use crate::lanes::turn_squares;
use crate::pairs::block_pairs;
use crate::words::put_word_block;
use paris_layer::Layer;
use paris_plane::Plane;
use std::simd::prelude::*;

/// The words of the four blocks of a quad, the first block's first.
#[inline(always)]
fn four_words(layer: &Layer, quad: usize) -> u64x4
    requires within { 256 * quad + 256 ≤ length layer.now }
    requires room { 4 * quad + 3 < 2 ^ 64 }
    ensures four { length result ≡ 4 }
    ensures bits { (q i : ℕ) → q < 4 → i < 64 → word_bit (slice_index result q) i ≡ slice_index_or layer.now (256 * quad + 64 * q + i) false }
{
    let first = layer.word(4 * quad);
    let second = layer.word(4 * quad + 1);
    let third = layer.word(4 * quad + 2);
    let fourth = layer.word(4 * quad + 3);
    u64x4::from_array([first, second, third, fourth])
}

/// The words of a quad of each of the first 64 planes, and zeros past the last plane.
fn quad_rows(layers: &[Layer], quad: usize, vps: usize) -> [u64x4; 64]
    requires within { 256 * quad + 256 ≤ vps }
    requires long { AllOf vps layers.now }
    ensures four { FourLanes 64 result }
    ensures bits { (q k i : ℕ) → q < 4 → k < 64 → i < 64 → lane_bit result q k i ≡ slice_index_or (plane_at layers.now k) (256 * quad + 64 * q + i) false }
{
    let mut rows = [u64x4::splat(0); 64];
    for k in 0..layers.len().min(64) {
        rows[k] = four_words(&layers[k], quad);
    }
    rows
}

/// Puts the words of the lanes into a list, those of the first lane first.
fn put_lanes(rows: &[u64x4; 64], words: &mut [u64; 256])
    requires four { FourLanes 64 rows.now }
    ensures { (q j : ℕ) → q < 4 → j < 64 → slice_index words.new (64 * q + j) ≡ slice_index (slice_index_or rows.now j []) q }
{
    for j in 0..64usize {
        let [first, second, third, fourth] = rows[j].to_array();
        words[j] = first;
        words[64 + j] = second;
        words[128 + j] = third;
        words[192 + j] = fourth;
    }
}

/// Puts the number of each processor of a whole quad into a list as a word, the first processor's first.
pub(crate) fn whole_quad_words(layers: &[Layer], quad: usize, vps: usize, words: &mut [u64; 256])
    requires narrow { length layers.now ≤ 64 }
    requires within { 256 * quad + 256 ≤ vps }
    requires long { AllOf vps layers.now }
    ensures { (i : ℕ) → i < 256 → slice_index words.new i ≡ number_at layers.now (256 * quad + i) }
{
    let mut rows = quad_rows(layers, quad, vps);
    turn_squares(&mut rows);
    put_lanes(&rows, words);
    words_fit(words);
}

/// The first 256 words, 64 in each lane.
fn side_by_side_lanes(words: &[u64]) -> [u64x4; 64]
    requires whole { 256 ≤ length words.now }
    ensures four { FourLanes 64 result }
    ensures words { (q j : ℕ) → q < 4 → j < 64 → slice_index (slice_index_or result j []) q ≡ slice_index words.now (64 * q + j) }
{
    let mut rows = [u64x4::splat(0); 64];
    for j in 0..64usize {
        rows[j] = u64x4::from_array([words[j], words[64 + j], words[128 + j], words[192 + j]]);
    }
    rows
}

/// Puts a word into each of the four blocks of a quad, the first into the first block.
#[inline(always)]
fn put_four_words(plane: &mut Plane, words: u64x4, quad: usize)
    requires four { length words ≡ 4 }
    requires within { 256 * quad + 256 ≤ length plane.old }
    requires room { 4 * quad + 3 < 2 ^ 64 }
    ensures long { length plane.new ≡ length plane.old }
    ensures bits { (q i : ℕ) → q < 4 → i < 64 → slice_index_or plane.new (256 * quad + 64 * q + i) false ≡ word_bit (slice_index words q) i }
    ensures others { (v : ℕ) → v < length plane.old → v / 256 ≢ quad → slice_index_or plane.new v false ≡ slice_index_or plane.old v false }
{
    let [first, second, third, fourth] = words.to_array();
    plane.set_word(4 * quad, first);
    plane.set_word(4 * quad + 1, second);
    plane.set_word(4 * quad + 2, third);
    plane.set_word(4 * quad + 3, fourth);
}

/// Puts a row into the quad of each plane.
fn put_quad_rows(planes: &mut [Plane], rows: &[u64x4; 64], quad: usize, vps: usize)
    requires narrow { length planes.old ≤ 64 }
    requires within { 256 * quad + 256 ≤ vps }
    requires four { FourLanes 64 rows.now }
    requires long { AllOf vps planes.old }
    ensures long { AllOf vps planes.new }
    ensures bits { (q k i : ℕ) → q < 4 → k < length planes.old → i < 64 → slice_index_or (plane_at planes.new k) (256 * quad + 64 * q + i) false ≡ lane_bit rows.now q k i }
    ensures others { (k : ℕ) → k < length planes.old → (v : ℕ) → v < vps → v / 256 ≢ quad → slice_index_or (plane_at planes.new k) v false ≡ slice_index_or (plane_at planes.old k) v false }
{
    for k in 0..planes.len() {
        put_four_words(&mut planes[k], rows[k], quad);
    }
}

/// Puts words, the first processor's first, into the processors of a whole quad, as far as their bits have planes.
pub(crate) fn put_whole_quad(planes: &mut [Plane], words: &[u64], quad: usize, vps: usize)
    requires narrow { length planes.old ≤ 64 }
    requires within { 256 * quad + 256 ≤ vps }
    requires whole { 256 ≤ length words.now }
    requires long { AllOf vps planes.old }
    ensures long { AllOf vps planes.new }
    ensures numbers { (i : ℕ) → i < 256 → number_at planes.new (256 * quad + i) ≡ low (length planes.old) (slice_index words.now i) }
    ensures others { (v : ℕ) → v < vps → v / 256 ≢ quad → number_at planes.new v ≡ number_at planes.old v }
{
    let mut rows = side_by_side_lanes(words);
    turn_squares(&mut rows);
    put_quad_rows(planes, &rows, quad, vps);
}

/// Whether four blocks are turned together: a whole quad, of numbers that the small squares of a block don't hold.
fn turns_whole(width: usize, quad: usize, vps: usize) -> bool
    requires within { 256 * quad < vps }
    ensures { IsTrue result → 256 * quad + 256 ≤ vps }
{
    width > 16 && vps - 256 * quad >= 256
}

/// Puts the words of a block into their places among those of its quad, from `at` on.
fn put_part_words(words: &mut [u64; 256], part: &[u64; 64], at: usize)
    requires within { at + 64 ≤ 256 }
    ensures put { (j : ℕ) → j < 64 → slice_index words.new (at + j) ≡ slice_index part.now j }
    ensures others { (i : ℕ) → (at ≤ i → at + 64 ≤ i) → slice_index words.new i ≡ slice_index words.old i }
{
    for j in 0..64usize {
        words[at + j] = part[j];
    }
}

/// Puts the number of each processor of a quad into a list as a word, block by block, as far as there are processors.
fn words_by_blocks(layers: &[Layer], quad: usize, vps: usize, words: &mut [u64; 256])
    requires narrow { length layers.now ≤ 64 }
    requires within { 256 * quad < vps }
    requires long { AllOf vps layers.now }
    ensures { (i : ℕ) → i < 256 → 256 * quad + i < vps → slice_index words.new i ≡ number_at layers.now (256 * quad + i) }
{
    for q in 0..(vps - 256 * quad).div_ceil(64).min(4) {
        let part = block_words(layers, 4 * quad + q, vps);
        put_part_words(words, &part, 64 * q);
    }
}

/// Puts the number of each processor of a quad into a list as a word, the first processor's first. Words past the last processor mean
/// nothing.
pub fn quad_words(layers: &[Layer], quad: usize, vps: usize, words: &mut [u64; 256])
    requires narrow { length layers.now ≤ 64 }
    requires within { 256 * quad < vps }
    requires long { AllOf vps layers.now }
    ensures { (i : ℕ) → i < 256 → 256 * quad + i < vps → slice_index words.new i ≡ number_at layers.now (256 * quad + i) }
{
    if turns_whole(layers.len(), quad, vps) {
        whole_quad_words(layers, quad, vps, words);
    } else {
        words_by_blocks(layers, quad, vps, words);
    }
}

/// Puts words into the processors of a quad, block by block, as far as there are processors.
fn put_by_blocks(planes: &mut [Plane], words: &[u64; 256], quad: usize, vps: usize)
    requires narrow { length planes.old ≤ 64 }
    requires within { 256 * quad < vps }
    requires long { AllOf vps planes.old }
    ensures long { AllOf vps planes.new }
    ensures numbers { (i : ℕ) → i < 256 → 256 * quad + i < vps → number_at planes.new (256 * quad + i) ≡ low (length planes.old) (slice_index words.now i) }
    ensures others { (v : ℕ) → v < vps → v / 256 ≢ quad → number_at planes.new v ≡ number_at planes.old v }
{
    for q in 0..(vps - 256 * quad).div_ceil(64).min(4) {
        put_word_block(planes, &words[64 * q..], 4 * quad + q, vps);
    }
}

/// Puts words, the first processor's first, into the processors of a quad, as far as their bits have planes.
pub fn put_quad_words(planes: &mut [Plane], words: &[u64; 256], quad: usize, vps: usize)
    requires narrow { length planes.old ≤ 64 }
    requires within { 256 * quad < vps }
    requires long { AllOf vps planes.old }
    ensures long { AllOf vps planes.new }
    ensures numbers { (i : ℕ) → i < 256 → 256 * quad + i < vps → number_at planes.new (256 * quad + i) ≡ low (length planes.old) (slice_index words.now i) }
    ensures others { (v : ℕ) → v < vps → v / 256 ≢ quad → number_at planes.new v ≡ number_at planes.old v }
{
    if turns_whole(planes.len(), quad, vps) {
        put_whole_quad(planes, words, quad, vps);
    } else {
        put_by_blocks(planes, words, quad, vps);
    }
}

/// Puts the words of a quad of each plane into rows, those of the first plane into row `from`.
fn put_layer_rows(rows: &mut [u64x4; 64], layers: &[Layer], from: usize, quad: usize, vps: usize)
    requires room { from + length layers.now ≤ 64 }
    requires within { 256 * quad + 256 ≤ vps }
    requires long { AllOf vps layers.now }
    requires four { FourLanes 64 rows.old }
    ensures four { FourLanes 64 rows.new }
    ensures bits { (k : ℕ) → k < length layers.now → (q i : ℕ) → q < 4 → i < 64 → lane_bit rows.new q (from + k) i ≡ slice_index_or (plane_at layers.now k) (256 * quad + 64 * q + i) false }
    ensures others { (j : ℕ) → (from ≤ j → from + length layers.now ≤ j) → slice_index_or rows.new j [] ≡ slice_index_or rows.old j [] }
{
    for k in 0..layers.len() {
        rows[from + k] = four_words(&layers[k], quad);
    }
}

/// The words of a quad of each of the first planes, and from row 32 on those of the others, with zeros past the last planes.
fn paired_quad_rows(xs: &[Layer], ys: &[Layer], quad: usize, vps: usize) -> [u64x4; 64]
    requires x_narrow { length xs.now ≤ 32 }
    requires y_narrow { length ys.now ≤ 32 }
    requires within { 256 * quad + 256 ≤ vps }
    requires xs { AllOf vps xs.now }
    requires ys { AllOf vps ys.now }
    ensures four { FourLanes 64 result }
    ensures low { (q k i : ℕ) → q < 4 → k < 32 → i < 64 → lane_bit result q k i ≡ slice_index_or (plane_at xs.now k) (256 * quad + 64 * q + i) false }
    ensures high { (q k i : ℕ) → q < 4 → k < 32 → i < 64 → lane_bit result q (32 + k) i ≡ slice_index_or (plane_at ys.now k) (256 * quad + 64 * q + i) false }
{
    let mut rows = [u64x4::splat(0); 64];
    put_layer_rows(&mut rows, xs, 0, quad, vps);
    put_layer_rows(&mut rows, ys, 32, quad, vps);
    rows
}

/// Leaves the low half of each word, and puts the high half into another list.
fn halve(low: &mut [u64; 256], high: &mut [u64; 256])
    ensures low { (i : ℕ) → i < 256 → slice_index low.new i ≡ slice_index low.old i % 2 ^ 32 }
    ensures high { (i : ℕ) → i < 256 → slice_index high.new i ≡ slice_index low.old i / 2 ^ 32 }
{
    for i in 0..256usize {
        high[i] = low[i] >> 32;
        low[i] %= HALF;
    }
}

/// Puts the numbers of two lists of up to 32 planes in a whole quad into two lists. Their planes are turned as one list.
fn paired_quad_words(
    xs: &[Layer],
    ys: &[Layer],
    quad: usize,
    vps: usize,
    x: &mut [u64; 256],
    y: &mut [u64; 256],
)
    requires x_narrow { length xs.now ≤ 32 }
    requires y_narrow { length ys.now ≤ 32 }
    requires within { 256 * quad + 256 ≤ vps }
    requires xs { AllOf vps xs.now }
    requires ys { AllOf vps ys.now }
    ensures x { (i : ℕ) → i < 256 → slice_index x.new i ≡ number_at xs.now (256 * quad + i) }
    ensures y { (i : ℕ) → i < 256 → slice_index y.new i ≡ number_at ys.now (256 * quad + i) }
{
    let mut rows = paired_quad_rows(xs, ys, quad, vps);
    turn_squares(&mut rows);
    put_lanes(&rows, x);
    words_fit(x);
    halve(x, y);
}

/// Puts a word of each processor of a quad into a list, block by block: the numbers of two lists of up to 32 planes are its halves.
fn pairs_by_blocks(xs: &[Layer], ys: &[Layer], quad: usize, vps: usize, words: &mut [u64; 256])
    requires x_narrow { length xs.now ≤ 32 }
    requires y_narrow { length ys.now ≤ 32 }
    requires within { 256 * quad < vps }
    requires xs { AllOf vps xs.now }
    requires ys { AllOf vps ys.now }
    ensures low { (i : ℕ) → i < 256 → 256 * quad + i < vps → slice_index words.new i % 2 ^ 32 ≡ number_at xs.now (256 * quad + i) }
    ensures high { (i : ℕ) → i < 256 → 256 * quad + i < vps → slice_index words.new i / 2 ^ 32 ≡ number_at ys.now (256 * quad + i) }
{
    for q in 0..(vps - 256 * quad).div_ceil(64).min(4) {
        let part = block_pairs(xs, ys, 4 * quad + q, vps);
        put_part_words(words, &part, 64 * q);
    }
}

/// Puts the numbers of two lists of planes in each processor of a quad into two lists, each as a word. Words past the last processor mean
/// nothing.
pub fn quad_operands(
    xs: &[Layer],
    ys: &[Layer],
    quad: usize,
    vps: usize,
    x: &mut [u64; 256],
    y: &mut [u64; 256],
)
    requires x_narrow { length xs.now ≤ 64 }
    requires y_narrow { length ys.now ≤ 64 }
    requires within { 256 * quad < vps }
    requires xs { AllOf vps xs.now }
    requires ys { AllOf vps ys.now }
    ensures x { (i : ℕ) → i < 256 → 256 * quad + i < vps → slice_index x.new i ≡ number_at xs.now (256 * quad + i) }
    ensures y { (i : ℕ) → i < 256 → 256 * quad + i < vps → slice_index y.new i ≡ number_at ys.now (256 * quad + i) }
{
    let width = xs.len().max(ys.len());
    if width <= 8 {
        pairs_by_blocks(xs, ys, quad, vps, x);
        halve(x, y);
    } else if width <= 32 && turns_whole(width, quad, vps) {
        paired_quad_words(xs, ys, quad, vps, x, y);
    } else {
        quad_words(xs, quad, vps, x);
        quad_words(ys, quad, vps, y);
    }
}
