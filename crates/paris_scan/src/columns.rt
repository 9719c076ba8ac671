//! Values gathered over whole lines whose neighbouring places lie whole words apart: the upper half of each line to the lower one, until
//! one row is left, whose totals all rows get.

ghost use Rattle.std.specs.Prelude.{◌≡◌, ℕ, ◌+◌, ◌*◌, ◌%◌, ◌^◌, ◌<◌, ◌≤◌, ◌++◌, ◌∷◌, All, Bool, IfOk, IsTrue, List, [], length};
ghost use Rattle.std.specs.Int.{IsPowerOfTwo};
ghost use Rattle.paris_geometry.specs.Geometry.{axis_length, processor_count, stride};
ghost use Rattle.paris_model.specs.Lines.{line_values, values_where};
ghost use Rattle.paris_field.specs.Numbers.{AllOf, number_at};
ghost use Rattle.paris_scan.specs.Blocks.{row};

use crate::halves::JoinHalves;
use paris_geometry::Geometry;
use paris_plane::Plane;
use std::alloc::{AllocError, Global};

/// Whether the neighbouring places of each line along an axis lie whole words apart, and the line has many.
pub(crate) fn is_column(geometry: Geometry, axis: usize) -> bool
    requires { axis < length geometry }
    ensures { IsTrue result → stride geometry axis % 64 ≡ 0 }
{
    geometry.stride(axis) % 64 == 0 && geometry.len(axis) >= 16
}

/// Every second run of `words` words of each plane, of which the first begins at word `from`: `count` of them.
fn alternate_planes(
    alloc: Global,
    planes: &[Plane],
    from: usize,
    words: usize,
    count: usize,
) -> Result<Vec<Plane>, AllocError>
    requires from { from ≤ words }
    requires planes { AllOf (count * (128 * words)) planes.now }
    ensures count { IfOk result (λ made. length made.items ≡ length planes.now) }
    ensures long { IfOk result (λ made. AllOf (count * (64 * words)) made.items) }
    ensures numbers { IfOk result (λ made. (p o : ℕ) → p < count → o < 64 * words → number_at made.items (p * (64 * words) + o) ≡ number_at planes.now (p * (128 * words) + (64 * from + o))) }
{
    let mut made = Vec::with_capacity(alloc, planes.len())?;
    for k in 0..planes.len() {
        let plane = planes[k].alternate(from, words, count)?;
        made.push(plane)?;
    }
    Ok(made)
}

/// Each of the `runs` runs of `words` words of each plane, `count` times over.
fn repeated_planes(
    alloc: Global,
    planes: &[Plane],
    words: usize,
    runs: usize,
    count: usize,
) -> Result<Vec<Plane>, AllocError>
    requires some { 0 < count }
    requires planes { AllOf (runs * (64 * words)) planes.now }
    requires small { runs * (64 * words) * count ≤ 65536 }
    ensures count { IfOk result (λ made. length made.items ≡ length planes.now) }
    ensures long { IfOk result (λ made. AllOf (runs * (count * (64 * words))) made.items) }
    ensures numbers { IfOk result (λ made. (p c o : ℕ) → p < runs → c < count → o < 64 * words → number_at made.items (p * (count * (64 * words)) + (c * (64 * words) + o)) ≡ number_at planes.now (p * (64 * words) + o)) }
{
    let mut made = Vec::with_capacity(alloc, planes.len())?;
    for k in 0..planes.len() {
        let plane = planes[k].repeated(words, runs, count)?;
        made.push(plane)?;
    }
    Ok(made)
}

/// Of each two runs of `words` words that follow one another, what the numbers of both come to: `count` runs.
fn halved<C: JoinHalves>(
    alloc: Global,
    state: &[Plane],
    words: usize,
    count: usize,
) -> Result<Vec<Plane>, AllocError>
    requires some { C.extra ≤ length state.now }
    requires state { AllOf (count * (128 * words)) state.now }
    requires run { 128 * words ≤ 65536 }
    requires small { count * (128 * words) ≤ 65536 }
    ensures count { IfOk result (λ lower. length lower.items ≡ length state.now) }
    ensures long { IfOk result (λ lower. AllOf (count * (64 * words)) lower.items) }
    ensures joined { IfOk result (λ lower. (L p o : ℕ) (xs ys : List ℕ) → length state.now ≡ L + C.extra → p < count → o < 64 * words → All (λ x. x < 2 ^ L) xs → All (λ x. x < 2 ^ L) ys
        → number_at state.now (p * (128 * words) + (64 * words + o)) ≡ C.shows L xs → number_at state.now (p * (128 * words) + o) ≡ C.shows L ys
        → number_at lower.items (p * (64 * words) + o) ≡ C.shows L (xs ++ ys)) }
{
    let mut lower = alternate_planes(alloc, state, 0, words, count)?;
    let upper = alternate_planes(alloc, state, words, words, count)?;
    let mut spare = Plane::zeros(alloc, count * (64 * words))?;
    C::join_halves(&upper, &mut lower, &mut spare);
    Ok(lower)
}

/// What the lists of the processors of each line come to, where `words` words make a row and `count` rows one of the `periods`.
fn fold_rows<C: JoinHalves>(
    alloc: Global,
    mut state: Vec<Plane>,
    words: usize,
    count: usize,
    periods: usize,
) -> Result<Vec<Plane>, AllocError>
    requires some { C.extra ≤ length state.items }
    requires power { IsPowerOfTwo count }
    requires state { AllOf (periods * (count * (64 * words))) state.items }
    requires period { count * (64 * words) ≤ 65536 }
    requires small { periods * (count * (64 * words)) ≤ 65536 }
    ensures count { IfOk result (λ totals. length totals.items ≡ length state.items) }
    ensures long { IfOk result (λ totals. AllOf (periods * (64 * words)) totals.items) }
    ensures lines { IfOk result (λ totals. (L : ℕ) (own : ℕ → List ℕ) → length state.items ≡ L + C.extra → ((u : ℕ) → All (λ x. x < 2 ^ L) (own u))
        → ((v : ℕ) → v < periods * (count * (64 * words)) → number_at state.items v ≡ C.shows L (own v))
        → (p o : ℕ) → p < periods → o < 64 * words → number_at totals.items (p * (64 * words) + o) ≡ C.shows L (row own (64 * words) count (p * (count * (64 * words)) + o))) }
{
    let mut places = count;
    while places > 1 {
        places /= 2;
        state = halved::<C>(alloc, &state, places * words, periods)?;
    }
    Ok(state)
}

/// Does what `spread_planes` of `butterfly` does.
pub(crate) fn column_planes<C: JoinHalves>(
    alloc: Global,
    geometry: Geometry,
    axis: usize,
    state: Vec<Plane>,
) -> Result<Vec<Plane>, AllocError>
    requires axis { axis < length geometry }
    requires columns { stride geometry axis % 64 ≡ 0 }
    requires some { C.extra ≤ length state.items }
    requires state { AllOf (processor_count geometry) state.items }
    ensures count { IfOk result (λ planes. length planes.items ≡ length state.items) }
    ensures long { IfOk result (λ planes. AllOf (processor_count geometry) planes.items) }
    ensures shows { IfOk result (λ planes. (L : ℕ) (selected : ℕ → Bool) (value : ℕ → ℕ) → length state.items ≡ L + C.extra → ((u : ℕ) → value u < 2 ^ L)
        → ((v : ℕ) → v < processor_count geometry → number_at state.items v ≡ C.shows L (values_where selected value (v ∷ [])))
        → (v : ℕ) → v < processor_count geometry → number_at planes.items v ≡ C.shows L (line_values geometry axis selected value v)) }
{
    let stride = geometry.stride(axis);
    let words = stride / 64;
    let count = geometry.len(axis) as usize;
    let periods = geometry.vps() / stride / count;
    let totals = fold_rows::<C>(alloc, state, words, count, periods)?;
    let planes = repeated_planes(alloc, &totals, words, periods, count)?;
    Ok(planes)
}
