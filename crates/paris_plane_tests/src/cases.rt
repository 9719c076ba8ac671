//! Numbers for sets of processors, from a fixed generator.

ghost use Rattle.std.specs.Prelude.{◌≡◌, ◌<◌, ◌≤◌, ◌^◌, IfOk, length};
ghost use Rattle.paris_field.specs.Fields.{AllFit};

use paris_layer::Layer;
use paris_plane::Plane;
use std::alloc::{AllocError, Global};

/// How many processors a set has, and the width of its fields in bits.
pub(crate) const SIZES: &[(usize, u64)] = &[
    (1, 1),
    (1, 8),
    (1, 64),
    (2, 1),
    (2, 8),
    (2, 64),
    (4, 1),
    (4, 8),
    (4, 64),
    (32, 1),
    (32, 8),
    (32, 64),
    (64, 1),
    (64, 8),
    (64, 64),
    (128, 1),
    (128, 8),
    (128, 64),
    (256, 1),
    (256, 8),
    (256, 64),
    (1_024, 8),
    (2_048, 8),
    (65_536, 1),
    (65_536, 8),
    (65_536, 64),
];

/// How many samples are made for a set of this many processors: a small set is given more of them.
pub(crate) fn rounds(count: usize) -> u64 {
    match count {
        1 | 2 | 4 => 16,
        32 | 64 | 128 | 256 => 4,
        _ => 1,
    }
}

/// A word that looks random, and is the same in each run.
fn word(seed: u64, place: u64) -> u64 {
    let state = seed.wrapping_add(place.wrapping_mul(0x9E37_79B9_7F4A_7C15));
    let first = (state ^ (state >> 30)).wrapping_mul(0xBF58_476D_1CE4_E5B9);
    let second = (first ^ (first >> 27)).wrapping_mul(0x94D0_49BB_1331_11EB);
    second ^ (second >> 31)
}

/// A number of this width for processor v. Half of them are 0, 1, all ones, the top bit alone, or all bits below the top.
fn number(width: u64, seed: u64, v: usize) -> u128
    requires positive { 0 < width }
    requires narrow { width ≤ 64 }
    ensures { result < 2 ^ width }
{
    let limit = 1u128 << width;
    let place = (v as u64).wrapping_mul(2);
    let number = match word(seed, place) % 10 {
        0 => 0,
        1 => 1,
        2 => u128::MAX,
        3 => limit / 2,
        4 => (limit / 2).wrapping_sub(1),
        _ => u128::from(word(seed, place.wrapping_add(1))),
    };
    number % limit
}

/// A number of this width for each of `count` processors.
fn numbers(alloc: Global, width: u64, seed: u64, count: usize) -> Result<Vec<u128>, AllocError>
    requires positive { 0 < width }
    requires narrow { width ≤ 64 }
    ensures count { IfOk result (λ list. length list.items ≡ count) }
    ensures fit { IfOk result (λ list. AllFit width list.items) }
{
    let mut list = Vec::new(alloc);
    for v in 0..count {
        list.push(number(width, seed, v))?;
    }
    Ok(list)
}

/// Numbers for each processor of a set: two operands and what stands at the destination, all of one width, and bits for
/// flags and masks.
#[derive(Drop)]
pub(crate) struct Sample {
    pub(crate) count: usize,
    pub(crate) width: u64,
    pub(crate) left: Vec<u128>,
    pub(crate) right: Vec<u128>,
    pub(crate) old: Vec<u128>,
    pub(crate) context: Vec<u128>,
    pub(crate) test: Vec<u128>,
    pub(crate) carry: Vec<u128>,
    ghost some: { 0 < width },
    ghost short: { width ≤ 64 },
    ghost left_count: { length left.items ≡ count },
    ghost left_fits: { AllFit width left.items },
    ghost right_count: { length right.items ≡ count },
    ghost right_fits: { AllFit width right.items },
    ghost old_count: { length old.items ≡ count },
    ghost old_fits: { AllFit width old.items },
    ghost context_count: { length context.items ≡ count },
    ghost test_count: { length test.items ≡ count },
    ghost carry_count: { length carry.items ≡ count },
}

/// The sample of a round.
pub(crate) fn sample_of(
    alloc: Global,
    count: usize,
    width: u64,
    round: u64,
) -> Result<Sample, AllocError>
    requires positive { 0 < width }
    requires narrow { width ≤ 64 }
{
    let seed = word(count as u64, round.wrapping_mul(1000).wrapping_add(width));
    Ok(Sample {
        count,
        width,
        left: numbers(alloc, width, word(seed, 1), count)?,
        right: numbers(alloc, width, word(seed, 2), count)?,
        old: numbers(alloc, width, word(seed, 3), count)?,
        context: numbers(alloc, 1, word(seed, 4), count)?,
        test: numbers(alloc, 1, word(seed, 5), count)?,
        carry: numbers(alloc, 1, word(seed, 6), count)?,
    })
}

/// A square of bits.
pub(crate) fn square(round: u64) -> [u64; 64] {
    let mut rows = [0u64; 64];
    for j in 0..64usize {
        rows[j] = word(round, j as u64);
    }
    rows
}

/// Writes these bits over those of a plane.
pub(crate) fn put_bits(plane: &mut Plane, bits: &[u128])
    requires { length plane.old ≡ length bits.now }
    ensures { length plane.new ≡ length bits.now }
{
    for v in 0..bits.len() {
        plane.set(v, bits[v] == 1);
    }
}

/// The plane of these bits.
pub(crate) fn plane(alloc: Global, bits: &[u128]) -> Result<Plane, AllocError>
    ensures { IfOk result (λ plane. length plane ≡ length bits.now) }
{
    let mut plane = Plane::zeros(alloc, bits.len())?;
    put_bits(&mut plane, bits);
    Ok(plane)
}

/// The layer of these bits.
pub(crate) fn layer(alloc: Global, bits: &[u128]) -> Result<Layer, AllocError>
    ensures { IfOk result (λ layer. length layer ≡ length bits.now) }
{
    Ok(Layer::from_plane(plane(alloc, bits)?))
}

/// One number for each processor.
pub(crate) fn everywhere(
    alloc: Global,
    number: u128,
    count: usize,
) -> Result<Vec<u128>, AllocError> {
    Vec::from_elem(alloc, number, count)
}
