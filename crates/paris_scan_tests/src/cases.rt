//! Sets of processors with numbers from a fixed generator.

ghost use Rattle.std.specs.Prelude.{◌≡◌, IfOk, length};
ghost use Rattle.paris_geometry.specs.Geometry.{processor_count};

use paris_field::FieldValue;
use paris_geometry::Geometry;
use paris_layer::Layer;
use paris_plane::Plane;
use std::alloc::{AllocError, Global};
use std::process::Abort;
use std::test::Fail;

const WIDTHS: &[u64] = &[1, 8, 64, 65, 100, 127, 128];

const NUMBERS: &[u64] = &[17, 32, 33, 64];

/// The lengths of a set's axes, axis 0 first, widths of its fields in bits, and which calls are run: one of how many, and at the first
/// width from which on.
pub(crate) const SETS: &[(&[u64], &[u64], usize, usize)] = &[
    (&[1], WIDTHS, 4, 0),
    (&[2], WIDTHS, 4, 1),
    (&[4], WIDTHS, 4, 2),
    (&[1, 4, 1], WIDTHS, 4, 3),
    (&[32], WIDTHS, 4, 0),
    (&[8, 4], WIDTHS, 4, 1),
    (&[64], WIDTHS, 8, 2),
    (&[4, 32], WIDTHS, 8, 3),
    (&[128], WIDTHS, 13, 4),
    (&[128, 2], WIDTHS, 13, 8),
    (&[4, 4, 4, 4], WIDTHS, 8, 2),
    (&[256], WIDTHS, 13, 0),
    (&[65_536], &[8, 128], 19, 0),
    (&[2, 32_768], &[1], 19, 3),
    (&[256, 256], &[8], 19, 6),
    (&[8, 8, 1024, 1], &[8], 19, 6),
    (&[64, 1024, 1], &[8], 27, 15),
    (&[8, 128, 8, 1], &[8], 19, 6),
];

/// Sets of which each axis but one has a single place: the lengths of their axes, widths, and in how many eighths of the processors the
/// context is 1.
pub(crate) const LINES: &[(&[u64], &[u64], &[u64])] = &[
    (&[1], &[1, 8, 64, 128], &[0, 8]),
    (&[32], &[1, 8, 64, 128], &[0, 5, 8]),
    (&[64], &[1, 8, 64, 96, 97, 128], &[0, 1, 8]),
    (&[1, 128], &[8, 128], &[0, 5, 8]),
    (&[1, 1, 256, 1], &[64], &[5]),
    (&[1, 1, 1, 2048], &[8], &[8]),
    (&[65_536], &[8], &[8]),
];

/// Sets in several lines whose processors follow one another, along axis 0: the lengths of their axes, widths, and in how many eighths of
/// the processors the context is 1.
pub(crate) const ROWS: &[(&[u64], &[u64], &[u64])] = &[
    (&[64, 2], &[1, 8, 96, 97, 128], &[0, 1, 8]),
    (&[64, 2, 4], &[64], &[5]),
    (&[128, 4], &[33, 64], &[1, 8]),
    (&[1024, 2], &[8], &[5]),
];

/// Sets in lines that lie whole words apart along an axis, and some that nearly do: the lengths of their axes, widths, and in how many
/// eighths of the processors the context is 1.
pub(crate) const COLUMNS: &[(&[u64], &[u64], &[u64])] = &[
    (&[64, 16], &[1, 8, 96, 128], &[0, 1, 8]),
    (&[64, 8], &[8], &[5]),
    (&[32, 16], &[8], &[5]),
    (&[32, 2, 16], &[64], &[5]),
    (&[64, 1, 32], &[33], &[5]),
    (&[64, 16, 2], &[8], &[1, 8]),
    (&[16, 8, 16, 2], &[7], &[5]),
    (&[128, 16, 2], &[1], &[5]),
    (&[256, 16], &[8], &[8]),
];

/// Sets whose sums, maxima and minima may be made one after another: the lengths of their axes, widths, and in how many eighths of the
/// processors the context is 1.
pub(crate) const RUNNING_SETS: &[(&[u64], &[u64], &[u64])] = &[
    (&[1], NUMBERS, &[0, 8]),
    (&[8], &[64], &[0, 5, 8]),
    (&[32], NUMBERS, &[0, 5, 8]),
    (&[64], NUMBERS, &[5]),
    (&[128], NUMBERS, &[5, 8]),
    (&[2, 8, 4, 2], NUMBERS, &[5]),
    (&[4, 4, 4, 4], NUMBERS, &[0, 5, 8]),
    (&[1, 256], NUMBERS, &[8]),
    (&[1024], NUMBERS, &[0, 5, 8]),
    (&[8, 128], NUMBERS, &[5]),
    (&[64, 2, 16], NUMBERS, &[5]),
    (&[4096], &[40, 64], &[0, 5, 8]),
    (&[2, 8192], &[32, 33], &[5]),
];

/// A word that looks random, and is the same in each run.
fn word(seed: u64, place: u64) -> u64 {
    let state = seed.wrapping_add(place.wrapping_mul(0x9E37_79B9_7F4A_7C15));
    let first = (state ^ (state >> 30)).wrapping_mul(0xBF58_476D_1CE4_E5B9);
    let second = (first ^ (first >> 27)).wrapping_mul(0x94D0_49BB_1331_11EB);
    second ^ (second >> 31)
}

/// A number for each of `count` processors, of the bits of `low`. Some are 0 or all ones, and some are small.
fn numbers(alloc: Global, low: u128, seed: u64, count: usize) -> Result<Vec<u128>, AllocError> {
    (0..count)
        .map(|v| {
            let word = word(seed, v as u64);
            let both = (u128::from(word) << 64) | u128::from(word.wrapping_mul(seed));
            match word % 8 {
                0 => 0,
                1 => low,
                2 | 3 => (both >> 3) & low & 3,
                _ => (both >> 3) & low,
            }
        })
        .collect(alloc)
}

/// 0 or 1 for each of `count` processors, in some `eighths` of eight 1.
fn bits(alloc: Global, eighths: u64, seed: u64, count: usize) -> Result<Vec<u128>, AllocError> {
    (0..count)
        .map(|v| u128::from(word(seed, v as u64) % 8 < eighths))
        .collect(alloc)
}

/// The plane of these bits.
fn plane(alloc: Global, bits: &[u128]) -> Result<Plane, AllocError>
    ensures { IfOk result (λ plane. length plane ≡ length bits.now) }
{
    let mut plane = Plane::zeros(alloc, bits.len())?;
    for v in 0..bits.len() {
        plane.set(v, bits[v] == 1);
    }
    Ok(plane)
}

/// Numbers for each processor of a set, which processors are selected, and where segments begin; each as a list, too.
#[derive(Drop)]
pub(crate) struct Sample {
    pub(crate) geometry: Geometry,
    pub(crate) numbers: Vec<u128>,
    pub(crate) context: Vec<u128>,
    pub(crate) cuts: Vec<u128>,
    pub(crate) field: FieldValue,
    pub(crate) selected: Layer,
    pub(crate) segments: Layer,
    ghost few: { length numbers.items ≡ processor_count geometry },
    ghost field_count: { length field.numbers ≡ processor_count geometry },
    ghost selected_count: { length selected ≡ processor_count geometry },
    ghost segments_count: { length segments ≡ processor_count geometry },
}

/// The sample of these lists, in a set whose axes have these lengths.
pub(crate) fn sample_with(
    rt: &impl Abort,
    alloc: Global,
    lengths: &[u64],
    width: u64,
    numbers: Vec<u128>,
    context: Vec<u128>,
    cuts: Vec<u128>,
) -> Result<Sample, Fail> {
    let geometry = Geometry::new(lengths)?;
    let count = geometry.vps();
    assert!(rt; numbers.len() == count && context.len() == count && cuts.len() == count);
    assert!(rt; width <= 128 && FieldValue::first_too_wide(width, &numbers).is_none());
    Ok(Sample {
        geometry,
        field: FieldValue::from_numbers(alloc, width, &numbers)?,
        selected: Layer::from_plane(plane(alloc, &context)?),
        segments: Layer::from_plane(plane(alloc, &cuts)?),
        numbers,
        context,
        cuts,
    })
}

/// A sample from the generator, whose context is 1 in so many eighths of the processors.
pub(crate) fn random_sample(
    rt: &impl Abort,
    alloc: Global,
    lengths: &[u64],
    width: u64,
    eighths: u64,
) -> Result<Sample, Fail> {
    assert!(rt; 0 < width && width <= 128);
    let low = u128::MAX >> (128 - width);
    let count = Geometry::new(lengths)?.vps();
    let seed = word(count as u64, width);
    let numbers = numbers(alloc, low, word(seed, 1), count)?;
    let context = bits(alloc, eighths, word(seed, 2), count)?;
    let cuts = bits(alloc, seed % 3, word(seed, 3), count)?;
    sample_with(rt, alloc, lengths, width, numbers, context, cuts)
}
