//! Sets of processors with numbers from a fixed generator.

ghost use Rattle.std.specs.Prelude.{◌≡◌, ◌<◌, ◌≤◌, IfOk, length};
ghost use Rattle.paris_geometry.specs.Geometry.{processor_count};

use paris_field::FieldValue;
use paris_geometry::Geometry;
use paris_layer::Layer;
use paris_plane::Plane;
use std::alloc::{AllocError, Global};
use std::process::Abort;
use std::test::Fail;

const WIDTHS: &[u64] = &[1, 8, 64, 65, 100, 127, 128];

/// The lengths of a set's axes, axis 0 first, and widths of its fields in bits.
pub(crate) const SETS: &[(&[u64], &[u64])] = &[
    (&[1], WIDTHS),
    (&[2], WIDTHS),
    (&[4], WIDTHS),
    (&[1, 4, 1], WIDTHS),
    (&[32], WIDTHS),
    (&[4, 8], WIDTHS),
    (&[64], WIDTHS),
    (&[128], WIDTHS),
    (&[2, 4, 2, 8], WIDTHS),
    (&[256], WIDTHS),
    (&[128, 2], WIDTHS),
    (&[4, 4, 4, 4], WIDTHS),
    (&[65_536], &[8, 128]),
    (&[16, 8, 2, 256], &[1]),
];

/// A word that looks random, and is the same in each run.
fn word(seed: u64, place: u64) -> u64 {
    let state = seed.wrapping_add(place.wrapping_mul(0x9E37_79B9_7F4A_7C15));
    let first = (state ^ (state >> 30)).wrapping_mul(0xBF58_476D_1CE4_E5B9);
    let second = (first ^ (first >> 27)).wrapping_mul(0x94D0_49BB_1331_11EB);
    second ^ (second >> 31)
}

/// Some low bits of two words for each of `count` processors.
fn numbers(alloc: Global, low: u128, seed: u64, count: usize) -> Result<Vec<u128>, AllocError> {
    (0..count)
        .map(|v| {
            let high = u128::from(word(seed, v as u64));
            let other = u128::from(word(!seed, v as u64));
            ((high << 64) | other) & low
        })
        .collect(alloc)
}

/// Bits for each of `count` processors, of which some three quarters are 1.
fn bits(alloc: Global, seed: u64, count: usize) -> Result<Vec<bool>, AllocError> {
    (0..count)
        .map(|v| word(seed, v as u64) % 4 != 0)
        .collect(alloc)
}

/// The plane of these bits.
fn plane(alloc: Global, bits: &[bool]) -> Result<Plane, AllocError>
    ensures { IfOk result (λ plane. length plane ≡ length bits.now) }
{
    let mut plane = Plane::zeros(alloc, bits.len())?;
    for v in 0..bits.len() {
        plane.set(v, bits[v]);
    }
    Ok(plane)
}

/// Numbers for each processor of a set, as lists and as fields: a source and what stands at the destination; and which processors are
/// selected.
#[derive(Drop)]
pub(crate) struct Sample {
    pub(crate) geometry: Geometry,
    pub(crate) width: u64,
    pub(crate) x: Vec<u128>,
    pub(crate) y: Vec<u128>,
    pub(crate) source: FieldValue,
    pub(crate) old: FieldValue,
    pub(crate) selected: Layer,
    ghost some: { 0 < width },
    ghost narrow: { width ≤ 128 },
    ghost x_count: { length x.items ≡ processor_count geometry },
    ghost y_count: { length y.items ≡ processor_count geometry },
    ghost source_width: { source.width ≡ width },
    ghost source_count: { length source.numbers ≡ processor_count geometry },
    ghost old_width: { old.width ≡ width },
    ghost old_count: { length old.numbers ≡ processor_count geometry },
    ghost selected_count: { length selected ≡ processor_count geometry },
}

/// The sample of these numbers, in a set whose axes have these lengths.
pub(crate) fn sample_with(
    rt: &impl Abort,
    alloc: Global,
    lengths: &[u64],
    width: u64,
    x: Vec<u128>,
    y: Vec<u128>,
    selected: &[bool],
) -> Result<Sample, Fail> {
    let geometry = Geometry::new(lengths)?;
    let count = geometry.vps();
    assert!(rt; x.len() == count && y.len() == count && selected.len() == count);
    assert!(rt; 0 < width && width <= 128);
    assert!(rt; FieldValue::first_too_wide(width, &x).is_none());
    assert!(rt; FieldValue::first_too_wide(width, &y).is_none());
    let source = FieldValue::from_numbers(alloc, width, &x)?;
    let old = FieldValue::from_numbers(alloc, width, &y)?;
    let selected = Layer::from_plane(plane(alloc, selected)?);
    Ok(Sample {
        geometry,
        width,
        x,
        y,
        source,
        old,
        selected,
    })
}

/// A sample from the generator.
pub(crate) fn random_sample(
    rt: &impl Abort,
    alloc: Global,
    lengths: &[u64],
    width: u64,
) -> Result<Sample, Fail> {
    assert!(rt; 0 < width && width <= 128);
    let low = u128::MAX >> (128 - width);
    let count = Geometry::new(lengths)?.vps();
    let seed = word(count as u64, width);
    let x = numbers(alloc, low, word(seed, 1), count)?;
    let y = numbers(alloc, low, word(seed, 2), count)?;
    let selected = bits(alloc, word(seed, 3), count)?;
    sample_with(rt, alloc, lengths, width, x, y, &selected)
}
