//! Sets of processors with numbers and addresses from a fixed generator.

ghost use Rattle.std.specs.Prelude.{◌≡◌, ◌≤◌, IfOk, length};
ghost use Rattle.paris_names.specs.declared.limits.TheConstants.{MAX_PROCESSORS};

use paris_field::FieldValue;
use paris_layer::Layer;
use paris_plane::Plane;
use std::alloc::{AllocError, Global};
use std::process::Abort;
use std::test::Fail;

/// How many processors a set has, the width of its fields in bits, and which calls are run: one of how many, and from which on.
pub(crate) const SETS: &[(usize, u64, usize, usize)] = &[
    (1, 1, 1, 0),
    (1, 8, 1, 1),
    (1, 64, 1, 2),
    (1, 65, 1, 0),
    (1, 100, 1, 1),
    (1, 127, 1, 2),
    (1, 128, 1, 3),
    (2, 1, 1, 0),
    (2, 8, 1, 1),
    (2, 64, 1, 2),
    (2, 128, 1, 3),
    (4, 1, 1, 0),
    (4, 8, 1, 1),
    (4, 64, 1, 2),
    (4, 128, 1, 3),
    (32, 1, 2, 0),
    (32, 8, 2, 1),
    (32, 64, 2, 2),
    (32, 128, 2, 3),
    (64, 1, 2, 0),
    (64, 8, 2, 1),
    (64, 16, 2, 0),
    (64, 17, 2, 1),
    (64, 32, 2, 0),
    (64, 33, 2, 1),
    (64, 64, 2, 2),
    (64, 65, 2, 0),
    (64, 100, 2, 1),
    (64, 127, 2, 2),
    (64, 128, 2, 3),
    (128, 1, 4, 0),
    (128, 8, 4, 1),
    (128, 64, 4, 2),
    (128, 128, 4, 3),
    (256, 1, 4, 0),
    (256, 8, 4, 1),
    (256, 16, 4, 2),
    (256, 17, 4, 3),
    (256, 32, 4, 0),
    (256, 33, 4, 1),
    (256, 64, 4, 2),
    (256, 65, 4, 0),
    (256, 80, 4, 1),
    (256, 100, 4, 1),
    (256, 127, 4, 2),
    (256, 128, 4, 3),
    (65_536, 8, 3, 1),
    (65_536, 128, 3, 2),
];

/// Where the selected processors of a set send to.
#[derive(Clone, Copy, Debug)]
pub(crate) enum Aim {
    /// Each to another.
    Apart,
    /// Each to another, but for two that meet.
    Meeting,
    /// Anywhere in the set.
    Anywhere,
    /// Anywhere, and some outside the set.
    Outside,
}

/// Which processors of a set are selected.
#[derive(Clone, Copy, Debug)]
pub(crate) enum Choice {
    /// Most of them.
    Most,
    /// All of each other block of 64, and most of those between.
    Blocks,
    /// All of them.
    Every,
    /// None of them.
    Nobody,
}

/// A word that looks random, and is the same in each run.
fn word(seed: u64, place: u64) -> u64 {
    let state = seed.wrapping_add(place.wrapping_mul(0x9E37_79B9_7F4A_7C15));
    let first = (state ^ (state >> 30)).wrapping_mul(0xBF58_476D_1CE4_E5B9);
    let second = (first ^ (first >> 27)).wrapping_mul(0x94D0_49BB_1331_11EB);
    second ^ (second >> 31)
}

/// Some low bits of two words for each of `count` processors.
fn numbers(alloc: Global, low: u128, seed: u64, count: usize) -> Result<Vec<u128>, AllocError> {
    (0..count)
        .map(|v| {
            let word = word(seed, v as u64);
            ((u128::from(word) << 64) | u128::from(word.wrapping_mul(seed))) & low
        })
        .collect(alloc)
}

/// Whether processor v is selected.
fn is_selected(choice: Choice, seed: u64, v: u64) -> bool {
    match choice {
        Choice::Blocks if v / 64 % 2 == 0 => true,
        Choice::Most | Choice::Blocks => word(seed, v) % 4 != 0,
        Choice::Every => true,
        Choice::Nobody => false,
    }
}

/// The address that processor v holds. One that isn't selected often holds one outside the set.
fn address(aim: Aim, count: u64, is_selected: bool, seed: u64, v: u64) -> u128 {
    let word = word(seed, v);
    let last = count.wrapping_sub(1);
    let outside = if word % 2 == 0 { count } else { 0xF_FFFF };
    let place = match aim {
        _ if !is_selected && word % 4 < 2 => outside,
        Aim::Outside if word % 16 < 2 => outside,
        Aim::Anywhere | Aim::Outside => (word >> 8) & last,
        Aim::Meeting if v == last => seed & last,
        Aim::Apart | Aim::Meeting => v.wrapping_mul(5).wrapping_add(seed) & last,
    };
    u128::from(place)
}

/// The addresses of processors with these bits of context.
fn addresses(
    alloc: Global,
    aim: Aim,
    seed: u64,
    context: &[u128],
) -> Result<Vec<u128>, AllocError> {
    let count = context.len() as u64;
    context
        .iter()
        .enumerate()
        .map(|(v, bit)| address(aim, count, *bit == 1, seed, v as u64))
        .collect(alloc)
}

/// The plane of these bits.
fn plane(alloc: Global, bits: &[u128]) -> Result<Plane, AllocError>
    ensures { IfOk result (λ plane. length plane ≡ length bits.now) }
{
    let mut plane = Plane::zeros(alloc, bits.len())?;
    for v in 0..bits.len() {
        plane.set(v, bits[v] == 1);
    }
    Ok(plane)
}

/// The field of these numbers.
fn field(
    rt: &impl Abort,
    alloc: Global,
    width: u64,
    numbers: &[u128],
) -> Result<FieldValue, AllocError>
    ensures width { IfOk result (λ value. value.width ≡ width) }
    ensures count { IfOk result (λ value. length value.numbers ≡ length numbers.now) }
{
    assert!(rt; width <= 128 && FieldValue::first_too_wide(width, numbers).is_none());
    let value = FieldValue::from_numbers(alloc, width, numbers)?;
    Ok(value)
}

/// For each processor of a set whether it is selected, the address that it holds, its number, and what stands at its destination.
#[derive(Drop)]
pub(crate) struct Lists {
    pub(crate) context: Vec<u128>,
    pub(crate) addresses: Vec<u128>,
    pub(crate) numbers: Vec<u128>,
    pub(crate) old: Vec<u128>,
}

/// The same as layers.
#[derive(Drop)]
pub(crate) struct Sample {
    pub(crate) lists: Lists,
    pub(crate) selected: Layer,
    pub(crate) addresses: FieldValue,
    pub(crate) x: FieldValue,
    pub(crate) old: FieldValue,
    ghost few: { length x.numbers ≤ MAX_PROCESSORS },
    ghost selected_count: { length selected ≡ length x.numbers },
    ghost addresses_count: { length addresses.numbers ≡ length x.numbers },
    ghost old_count: { length old.numbers ≡ length x.numbers },
    ghost old_width: { old.width ≡ x.width },
}

/// The sample of these lists, where numbers have `width` bits, and addresses 20.
pub(crate) fn sample_with(
    rt: &impl Abort,
    alloc: Global,
    width: u64,
    lists: Lists,
) -> Result<Sample, Fail> {
    wide_sample(rt, alloc, width, 20, lists)
}

/// The sample of these lists, where numbers have `width` bits, and addresses `address_width`.
fn wide_sample(
    rt: &impl Abort,
    alloc: Global,
    width: u64,
    address_width: u64,
    lists: Lists,
) -> Result<Sample, Fail> {
    let count = lists.numbers.len();
    assert!(rt; count <= 65_536 && lists.old.len() == count);
    assert!(rt; lists.context.len() == count && lists.addresses.len() == count);
    Ok(Sample {
        selected: Layer::from_plane(plane(alloc, &lists.context)?),
        addresses: field(rt, alloc, address_width, &lists.addresses)?,
        x: field(rt, alloc, width, &lists.numbers)?,
        old: field(rt, alloc, width, &lists.old)?,
        lists,
    })
}

/// A sample from the generator, where addresses have 20 bits.
pub(crate) fn random_sample(
    rt: &impl Abort,
    alloc: Global,
    aim: Aim,
    count: usize,
    width: u64,
) -> Result<Sample, Fail> {
    random_wide_sample(rt, alloc, aim, Choice::Most, count, width, 20)
}

/// A sample from the generator, where addresses have `address_width` bits.
pub(crate) fn random_wide_sample(
    rt: &impl Abort,
    alloc: Global,
    aim: Aim,
    choice: Choice,
    count: usize,
    width: u64,
    address_width: u64,
) -> Result<Sample, Fail> {
    assert!(rt; 0 < width && width <= 128);
    let low = u128::MAX >> (128 - width);
    let seed = word(count as u64, width);
    let context: Vec<u128> = (0..count)
        .map(|v| u128::from(is_selected(choice, !seed, v as u64)))
        .collect(alloc)?;
    let lists = Lists {
        addresses: addresses(alloc, aim, word(seed, 1), &context)?,
        numbers: numbers(alloc, low, word(seed, 2), count)?,
        old: numbers(alloc, low, word(seed, 3), count)?,
        context,
    };
    wide_sample(rt, alloc, width, address_width, lists)
}
