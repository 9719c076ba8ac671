//! Numbers for sets of processors, from a fixed generator.

ghost use Rattle.std.specs.Prelude.{◌≡◌, ◌<◌, ◌≤◌, IfOk, length};

use crate::expected::mask;
use std::alloc::{AllocError, Global};

/// How many processors a set has, and the width of its fields in bits.
pub(crate) const SIZES: &[(usize, u64)] = &[
    (1, 1),
    (1, 8),
    (1, 32),
    (1, 64),
    (1, 65),
    (1, 100),
    (1, 127),
    (1, 128),
    (2, 1),
    (2, 8),
    (2, 32),
    (2, 64),
    (2, 128),
    (4, 1),
    (4, 8),
    (4, 16),
    (4, 20),
    (4, 21),
    (4, 31),
    (4, 32),
    (4, 33),
    (4, 63),
    (4, 64),
    (4, 65),
    (4, 100),
    (4, 127),
    (4, 128),
    (32, 1),
    (32, 8),
    (32, 32),
    (32, 64),
    (32, 128),
    (64, 1),
    (64, 8),
    (64, 32),
    (64, 64),
    (64, 128),
    (65, 1),
    (65, 8),
    (65, 16),
    (65, 20),
    (65, 21),
    (65, 31),
    (65, 32),
    (65, 33),
    (65, 63),
    (65, 64),
    (65, 65),
    (65, 100),
    (65, 127),
    (65, 128),
    (128, 1),
    (128, 8),
    (128, 32),
    (128, 64),
    (128, 128),
    (256, 1),
    (256, 8),
    (256, 16),
    (256, 31),
    (256, 32),
    (256, 33),
    (256, 64),
    (256, 128),
    (65_536, 1),
    (65_536, 8),
    (65_536, 32),
    (65_536, 64),
    (65_536, 65),
    (65_536, 100),
    (65_536, 127),
    (65_536, 128),
];

/// How many times numbers are made for a set of this many processors: more often for a small set.
pub(crate) fn rounds(count: usize) -> u64 {
    if count < 32 { 16 } else { 1 }
}

/// A word that looks random, and is the same in each run.
pub(crate) fn word(seed: u64, place: u64) -> u64 {
    let state = seed.wrapping_add(place.wrapping_mul(0x9E37_79B9_7F4A_7C15));
    let first = (state ^ (state >> 30)).wrapping_mul(0xBF58_476D_1CE4_E5B9);
    let second = (first ^ (first >> 27)).wrapping_mul(0x94D0_49BB_1331_11EB);
    second ^ (second >> 31)
}

/// A number of this width for processor v. Half of them are 0, 1, all ones, the top bit alone, or all bits below the top, and
/// some of the others are short.
fn number(width: u64, seed: u64, v: usize) -> u128
    requires positive { 0 < width }
    requires narrow { width ≤ 128 }
{
    let place = (v as u64).wrapping_mul(3);
    let low = word(seed, place.wrapping_add(1));
    let high = word(seed, place.wrapping_add(2));
    let most = mask(width);
    match word(seed, place) % 12 {
        0 => 0,
        1 => 1,
        2 => most,
        3 => most - most / 2,
        4 => most / 2,
        5 | 6 => u128::from(low >> (high % 64)) & most,
        _ => ((u128::from(high) << 64) | u128::from(low)) & most,
    }
}

/// A number of this width for each of `count` processors.
pub(crate) fn numbers(
    alloc: Global,
    width: u64,
    seed: u64,
    count: usize,
) -> Result<Vec<u128>, AllocError>
    requires positive { 0 < width }
    requires narrow { width ≤ 128 }
    ensures { IfOk result (λ list. length list.items ≡ count) }
{
    let mut list = Vec::new(alloc);
    for v in 0..count {
        list.push(number(width, seed, v))?;
    }
    Ok(list)
}
