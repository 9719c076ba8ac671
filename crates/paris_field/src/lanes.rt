//! Four squares of 64 by 64 bits, whose rows lie side by side in four lanes, turned about their diagonals together. Eight rows at a time
//! are in registers, and three digits of their numbers are exchanged with three of their places.

ghost use Rattle.std.specs.Prelude.{◌≡◌, ◌≢◌, ℕ, ◌+◌, ◌-◌, ◌*◌, ◌/◌, ◌%◌, ◌<◌, ◌==◌, cond, length, slice_index, slice_index_or, []};
ghost use Rattle.paris_plane.specs.Bits.{word_bit};
ghost use Rattle.paris_plane.specs.Digits.{MarksZeros, digit};
ghost use Rattle.paris_field.specs.Square.{FourLanes, lane_bit, replaced};

use std::simd::prelude::*;

/// Turns the four squares: in each lane, bit i of row j becomes bit j of row i.
pub(crate) fn turn_squares(rows: &mut [u64x4; 64])
    requires four { FourLanes 64 rows.old }
    ensures four { FourLanes 64 rows.new }
    ensures bits { (q j i : ℕ) → q < 4 → j < 64 → i < 64 → lane_bit rows.new q j i ≡ lane_bit rows.old q i j }
{
    turn_low_digits(rows);
    turn_high_digits(rows);
}

/// Exchanges the digits of weight 1, 2 and 4 of rows and of places.
fn turn_low_digits(rows: &mut [u64x4; 64])
    requires four { FourLanes 64 rows.old }
    ensures four { FourLanes 64 rows.new }
    ensures bits { (q j i : ℕ) → q < 4 → j < 64 → i < 64 → lane_bit rows.new q j i ≡ lane_bit rows.old q (j / 8 * 8 + i % 8) (i / 8 * 8 + j % 8) }
{
    for block in 0..8usize {
        let eight = low_turned(next_rows(rows, 8 * block));
        put_next_rows(rows, 8 * block, eight);
    }
}

/// Exchanges the digits of weight 8, 16 and 32 of rows and of places.
fn turn_high_digits(rows: &mut [u64x4; 64])
    requires four { FourLanes 64 rows.old }
    ensures four { FourLanes 64 rows.new }
    ensures bits { (q j i : ℕ) → q < 4 → j < 64 → i < 64 → lane_bit rows.new q j i ≡ lane_bit rows.old q (i / 8 * 8 + j % 8) (j / 8 * 8 + i % 8) }
{
    for row in 0..8usize {
        let eight = high_turned(spaced_rows(rows, row));
        put_spaced_rows(rows, row, eight);
    }
}

/// Eight rows from `start` on.
#[inline(always)]
fn next_rows(rows: &[u64x4; 64], start: usize) -> [u64x4; 8]
    requires within { start + 7 < 64 }
    ensures { (j : ℕ) → j < 8 → slice_index_or result j [] ≡ slice_index_or rows.now (start + j) [] }
{
    let mut eight = [u64x4::splat(0); 8];
    for j in 0..8usize {
        eight[j] = rows[start + j];
    }
    eight
}

/// Puts eight rows in the places from `start` on.
#[inline(always)]
fn put_next_rows(rows: &mut [u64x4; 64], start: usize, eight: [u64x4; 8])
    requires within { start + 7 < 64 }
    ensures put { (j : ℕ) → j < 8 → slice_index_or rows.new (start + j) [] ≡ slice_index_or eight j [] }
    ensures others { (k : ℕ) → ((j : ℕ) → j < 8 → k ≢ start + j) → slice_index_or rows.new k [] ≡ slice_index_or rows.old k [] }
{
    for j in 0..8usize {
        rows[start + j] = eight[j];
    }
}

/// Every eighth row from `start` on.
#[inline(always)]
fn spaced_rows(rows: &[u64x4; 64], start: usize) -> [u64x4; 8]
    requires within { start + 56 < 64 }
    ensures { (j : ℕ) → j < 8 → slice_index_or result j [] ≡ slice_index_or rows.now (start + 8 * j) [] }
{
    let mut eight = [u64x4::splat(0); 8];
    for j in 0..8usize {
        eight[j] = rows[start + 8 * j];
    }
    eight
}

/// Puts eight rows in every eighth place from `start` on.
#[inline(always)]
fn put_spaced_rows(rows: &mut [u64x4; 64], start: usize, eight: [u64x4; 8])
    requires within { start + 56 < 64 }
    ensures put { (j : ℕ) → j < 8 → slice_index_or rows.new (start + 8 * j) [] ≡ slice_index_or eight j [] }
    ensures others { (k : ℕ) → ((j : ℕ) → j < 8 → k ≢ start + 8 * j) → slice_index_or rows.new k [] ≡ slice_index_or rows.old k [] }
{
    for j in 0..8usize {
        rows[start + 8 * j] = eight[j];
    }
}

/// Eight rows, of whose numbers all three digits are exchanged with the lowest three of their places.
#[inline(always)]
fn low_turned(rows: [u64x4; 8]) -> [u64x4; 8]
    requires four { FourLanes 8 rows }
    ensures four { FourLanes 8 result }
    ensures bits { (q j i : ℕ) → q < 4 → j < 8 → i < 64 → lane_bit result q j i ≡ lane_bit rows q (i % 8) (i / 8 * 8 + j) }
{
    let one = near_exchanged::<1>(rows, 0x5555_5555_5555_5555);
    let two = middle_exchanged::<2>(one, 0x3333_3333_3333_3333);
    far_exchanged::<4>(two, 0x0F0F_0F0F_0F0F_0F0F)
}

/// Eight rows, of whose numbers all three digits are exchanged with the highest three of their places.
#[inline(always)]
fn high_turned(rows: [u64x4; 8]) -> [u64x4; 8]
    requires four { FourLanes 8 rows }
    ensures four { FourLanes 8 result }
    ensures bits { (q j i : ℕ) → q < 4 → j < 8 → i < 64 → lane_bit result q j i ≡ lane_bit rows q (i / 8) (j * 8 + i % 8) }
{
    let one = near_exchanged::<8>(rows, 0x00FF_00FF_00FF_00FF);
    let two = middle_exchanged::<16>(one, 0x0000_FFFF_0000_FFFF);
    far_exchanged::<32>(two, 0x0000_0000_FFFF_FFFF)
}

/// Eight rows, of whose numbers the digit of weight 1 is exchanged with that of weight `S` of their places.
#[inline(always)]
fn near_exchanged<const S: usize>(rows: [u64x4; 8], mask: u64) -> [u64x4; 8]
    requires shift { (0 < S) × (S < 64) }
    requires mask { MarksZeros S mask }
    requires four { FourLanes 8 rows }
    ensures four { FourLanes 8 result }
    ensures bits { (q j i : ℕ) → q < 4 → j < 8 → i < 64 → lane_bit result q j i ≡ lane_bit rows q (replaced 1 j (digit S i)) (replaced S i (digit 1 j)) }
{
    let (first, second) = exchange_lanes::<S>(rows[0], rows[1], mask);
    let (third, fourth) = exchange_lanes::<S>(rows[2], rows[3], mask);
    let (fifth, sixth) = exchange_lanes::<S>(rows[4], rows[5], mask);
    let (seventh, eighth) = exchange_lanes::<S>(rows[6], rows[7], mask);
    [first, second, third, fourth, fifth, sixth, seventh, eighth]
}

/// The same with the digit of weight 2.
#[inline(always)]
fn middle_exchanged<const S: usize>(rows: [u64x4; 8], mask: u64) -> [u64x4; 8]
    requires shift { (0 < S) × (S < 64) }
    requires mask { MarksZeros S mask }
    requires four { FourLanes 8 rows }
    ensures four { FourLanes 8 result }
    ensures bits { (q j i : ℕ) → q < 4 → j < 8 → i < 64 → lane_bit result q j i ≡ lane_bit rows q (replaced 2 j (digit S i)) (replaced S i (digit 2 j)) }
{
    let (first, third) = exchange_lanes::<S>(rows[0], rows[2], mask);
    let (second, fourth) = exchange_lanes::<S>(rows[1], rows[3], mask);
    let (fifth, seventh) = exchange_lanes::<S>(rows[4], rows[6], mask);
    let (sixth, eighth) = exchange_lanes::<S>(rows[5], rows[7], mask);
    [first, second, third, fourth, fifth, sixth, seventh, eighth]
}

/// The same with the digit of weight 4.
#[inline(always)]
fn far_exchanged<const S: usize>(rows: [u64x4; 8], mask: u64) -> [u64x4; 8]
    requires shift { (0 < S) × (S < 64) }
    requires mask { MarksZeros S mask }
    requires four { FourLanes 8 rows }
    ensures four { FourLanes 8 result }
    ensures bits { (q j i : ℕ) → q < 4 → j < 8 → i < 64 → lane_bit result q j i ≡ lane_bit rows q (replaced 4 j (digit S i)) (replaced S i (digit 4 j)) }
{
    let (first, fifth) = exchange_lanes::<S>(rows[0], rows[4], mask);
    let (second, sixth) = exchange_lanes::<S>(rows[1], rows[5], mask);
    let (third, seventh) = exchange_lanes::<S>(rows[2], rows[6], mask);
    let (fourth, eighth) = exchange_lanes::<S>(rows[3], rows[7], mask);
    [first, second, third, fourth, fifth, sixth, seventh, eighth]
}

/// Two rows, where the bits of the first at places with the digit 1 and those of the second at places with the digit 0 are exchanged.
#[inline(always)]
fn exchange_lanes<const S: usize>(upper: u64x4, lower: u64x4, mask: u64) -> (u64x4, u64x4)
    requires shift { (0 < S) × (S < 64) }
    requires mask { MarksZeros S mask }
    requires upper_four { length upper ≡ 4 }
    requires lower_four { length lower ≡ 4 }
    ensures upper_four { length result.0 ≡ 4 }
    ensures lower_four { length result.1 ≡ 4 }
    ensures upper { (q i : ℕ) → q < 4 → i < 64 → word_bit (slice_index result.0 q) i ≡ cond (digit S i == 0) (word_bit (slice_index upper q) i) (word_bit (slice_index lower q) (i - S)) }
    ensures lower { (q i : ℕ) → q < 4 → i < 64 → word_bit (slice_index result.1 q) i ≡ cond (digit S i == 0) (word_bit (slice_index upper q) (i + S)) (word_bit (slice_index lower q) i) }
{
    let by = u64x4::splat(S as u64);
    let moved = ((upper >> by) ^ lower) & u64x4::splat(mask);
    (upper ^ (moved << by), lower ^ moved)
}
