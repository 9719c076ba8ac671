//! In which stretches two values differ.

ghost use Rattle.std.specs.Prelude.{◌≡◌, ◌↔◌, ℕ, ◌+◌, ◌*◌, ◌<◌, ◌≤◌, IsTrue, length};
ghost use Rattle.paris_plane.specs.Bits.{word_bit};
ghost use Rattle.paris_field.specs.Numbers.{AllOf, number_at};
ghost use Rattle.paris_stretches.specs.Stretches.{differences, stretch_differs};

use crate::bounds::{bound, low_bits};
use paris_field::FieldValue;
use paris_layer::Layer;

/// Whether two words have the same bits from bit `from` on, so many of them.
fn word_agrees(x: u64, y: u64, from: usize, count: usize) -> bool
    requires some { from < 64 }
    requires within { from + count ≤ 64 }
    ensures { IsTrue result ↔ ((i : ℕ) → i < count → word_bit x (from + i) ≡ word_bit y (from + i)) }
{
    low_bits((x >> from) ^ (y >> from), count) == 0
}

/// Whether two values hold the same numbers in the processors of a block from place `from` in it on, so many of them.
fn block_agrees(
    xs: &[Layer],
    ys: &[Layer],
    block: usize,
    from: usize,
    count: usize,
    vps: usize,
) -> bool
    requires width { length xs.now ≡ length ys.now }
    requires within { 64 * block < vps }
    requires x { AllOf vps xs.now }
    requires y { AllOf vps ys.now }
    requires some { from < 64 }
    requires block { from + count ≤ 64 }
    requires processors { 64 * block + (from + count) ≤ vps }
    ensures { IsTrue result ↔ ((i : ℕ) → i < count → number_at xs.now (64 * block + (from + i)) ≡ number_at ys.now (64 * block + (from + i))) }
{
    for k in 0..xs.len() {
        if !word_agrees(xs[k].word(block), ys[k].word(block), from, count) {
            return false;
        }
    }
    true
}

/// Whether two values hold the same numbers in the processors from one to before another.
fn agrees(xs: &[Layer], ys: &[Layer], start: usize, stop: usize, vps: usize) -> bool
    requires width { length xs.now ≡ length ys.now }
    requires x { AllOf vps xs.now }
    requires y { AllOf vps ys.now }
    requires order { start ≤ stop }
    requires within { stop ≤ vps }
    ensures { IsTrue result ↔ ((v : ℕ) → start ≤ v → v < stop → number_at xs.now v ≡ number_at ys.now v) }
{
    for block in start / 64..stop.div_ceil(64) {
        let from = start.max(64 * block);
        let place = from - 64 * block;
        let count = (stop - from).min(64 - place);
        if !block_agrees(xs, ys, block, place, count, vps) {
            return false;
        }
    }
    true
}

/// Whether two values differ in a number of stretch `i`, where their processors are cut into so many parts. Nothing is looked at where
/// they are known to be equal.
fn differs(x: &FieldValue, y: &FieldValue, equal: bool, parts: usize, i: usize) -> bool
    requires equal { IsTrue equal → x.now ≡ y.now }
    requires width { x.now.width ≡ y.now.width }
    requires count { length x.now.numbers ≡ length y.now.numbers }
    requires within { i < parts }
    ensures { result ≡ stretch_differs parts x.now.numbers y.now.numbers i }
{
    if equal {
        return false;
    }
    let count = x.len();
    let start = bound(count, parts, i);
    let stop = bound(count, parts, i + 1);
    !agrees(x.planes(), y.planes(), start, stop, count)
}

/// Puts a 1 for each stretch in which two values differ, and a 0 for each other one, where their processors are cut into as many parts as
/// the room has bytes. It takes no memory.
pub fn put_differences(x: &FieldValue, y: &FieldValue, room: &mut [u8])
    requires width { x.now.width ≡ y.now.width }
    requires count { length x.now.numbers ≡ length y.now.numbers }
    ensures { room.new ≡ differences (length room.old) x.now.numbers y.now.numbers }
{
    let equal = x.equals(y);
    let parts = room.len();
    for i in 0..parts {
        room[i] = u8::from(differs(x, y, equal, parts, i));
    }
}
