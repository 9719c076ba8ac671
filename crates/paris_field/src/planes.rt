//! Lists of planes and of layers: plane k holds bit k of each processor's number.

ghost use Rattle.std.specs.Prelude.{◌≡◌, ◌≢◌, ◌↔◌, ℕ, ◌+◌, ◌*◌, ◌/◌, ◌^◌, ◌<◌, ◌≤◌, ◌%◌, IfOk, IsTrue, OnOk, cond, drop, false, length, replicate, slice_index, slice_index_or, take};
ghost use Rattle.paris_model.specs.Store.{low};
ghost use Rattle.paris_field.specs.Numbers.{AllOf, bit_in, number_at, numbers};

use paris_layer::Layer;
use paris_plane::Plane;
use std::alloc::{AllocError, Global};

/// `width` planes of zeros, for `vps` processors.
pub fn zero_planes(alloc: Global, width: usize, vps: usize) -> Result<Vec<Plane>, AllocError>
    ensures { IfOk result (λ planes. planes.items ≡ replicate width (replicate vps false)) }
{
    let mut planes = Vec::with_capacity(alloc, width)?;
    for _ in 0..width {
        planes.push(Plane::zeros(alloc, vps)?)?;
    }
    Ok(planes)
}

/// `width` layers of zeros, for `vps` processors. They take no words.
pub(crate) fn zero_layers(alloc: Global, width: usize, vps: usize) -> Result<Vec<Layer>, AllocError>
    ensures { IfOk result (λ layers. layers.items ≡ replicate width (replicate vps false)) }
{
    let mut layers = Vec::with_capacity(alloc, width)?;
    for _ in 0..width {
        layers.push(Layer::filled(false, vps))?;
    }
    Ok(layers)
}

/// `width` layers for `vps` processors: the low `count` of them hold as many bits of each processor's own address, from bit `from`
/// on, and the others zeros.
pub(crate) fn address_layers(
    alloc: Global,
    width: u64,
    from: u64,
    count: u64,
    vps: usize,
) -> Result<Vec<Layer>, AllocError>
    requires narrow { width ≤ 128 }
    requires room { count ≤ width }
    requires within { from + count ≤ 64 }
    ensures width { IfOk result (λ layers. length layers.items ≡ width) }
    ensures long { IfOk result (λ layers. AllOf vps layers.items) }
    ensures numbers { IfOk result (λ layers. (v : ℕ) → v < vps → number_at layers.items v ≡ v / 2 ^ from % 2 ^ count) }
{
    let mut layers = Vec::with_capacity(alloc, width as usize)?;
    for k in 0..count {
        let stripes = Plane::stripes(alloc, (from + k) as u32, vps)?;
        layers.push(Layer::from_plane(stripes))?;
    }
    for _ in count..width {
        layers.push(Layer::filled(false, vps))?;
    }
    Ok(layers)
}

/// A copy of each layer.
pub fn copy_layers(alloc: Global, layers: &[Layer]) -> Result<Vec<Layer>, AllocError>
    ensures { IfOk result (λ copies. copies.items ≡ layers.now) }
{
    let mut copies = Vec::with_capacity(alloc, layers.len())?;
    for layer in layers {
        copies.push(layer.copy()?)?;
    }
    Ok(copies)
}

/// The bits of each layer in words of their own.
pub fn planes_of(alloc: Global, layers: &[Layer]) -> Result<Vec<Plane>, AllocError>
    ensures { IfOk result (λ planes. planes.items ≡ layers.now) }
{
    let mut planes = Vec::with_capacity(alloc, layers.len())?;
    for layer in layers {
        planes.push(layer.to_plane(alloc)?)?;
    }
    Ok(planes)
}

/// The bits of each plane, whose words go where all its bits are the same.
pub fn layers_of(alloc: Global, planes: Vec<Plane>) -> Result<Vec<Layer>, AllocError>
    ensures { IfOk result (λ layers. layers.items ≡ planes.items) }
{
    let mut layers = Vec::with_capacity(alloc, planes.len())?;
    for plane in planes {
        layers.push(Layer::from_plane(plane))?;
    }
    Ok(layers)
}

/// Takes the low `bits` bits of `other` where the mask is 1.
pub fn merge_planes(planes: &mut [Plane], mask: &Plane, other: &[Plane], bits: usize)
    requires room { bits ≤ length planes.old }
    requires there { bits ≤ length other.now }
    requires planes { AllOf (length mask.now) planes.old }
    requires others { AllOf (length mask.now) other.now }
    ensures planes { AllOf (length mask.now) planes.new }
    ensures low { (v : ℕ) → v < length mask.now → number_at (take bits planes.new) v ≡ cond (slice_index_or mask.now v false) (number_at (take bits other.now) v) (number_at (take bits planes.old) v) }
    ensures high { drop bits planes.new ≡ drop bits planes.old }
{
    for k in 0..bits {
        planes[k].select_in(mask, &other[k]);
    }
}

/// Takes the low `bits` bits of `other` where the mask is 1. Fails only for want of memory; the numbers then mean nothing.
pub(crate) fn merge_layers(
    alloc: Global,
    layers: &mut [Layer],
    mask: &Layer,
    other: &[Layer],
    bits: usize,
) -> Result<(), AllocError>
    requires room { bits ≤ length layers.old }
    requires there { bits ≤ length other.now }
    requires layers { AllOf (length mask.now) layers.old }
    requires others { AllOf (length mask.now) other.now }
    ensures layers { AllOf (length mask.now) layers.new }
    ensures low { OnOk result ((v : ℕ) → v < length mask.now → number_at (take bits layers.new) v ≡ cond (slice_index_or mask.now v false) (number_at (take bits other.now) v) (number_at (take bits layers.old) v)) }
    ensures high { OnOk result (drop bits layers.new ≡ drop bits layers.old) }
{
    for k in 0..bits {
        layers[k].select_in(alloc, mask, &other[k])?;
    }
    Ok(())
}

/// The numbers of `chosen` where the mask is 1, and those of `others` elsewhere.
pub fn chosen_layers(
    alloc: Global,
    mask: &Layer,
    chosen: &[Layer],
    others: &[Layer],
) -> Result<Vec<Layer>, AllocError>
    requires same { length others.now ≡ length chosen.now }
    requires chosen { AllOf (length mask.now) chosen.now }
    requires others { AllOf (length mask.now) others.now }
    ensures count { IfOk result (λ layers. length layers.items ≡ length others.now) }
    ensures long { IfOk result (λ layers. AllOf (length mask.now) layers.items) }
    ensures numbers { IfOk result (λ layers. (v : ℕ) → v < length mask.now → number_at layers.items v ≡ cond (slice_index_or mask.now v false) (number_at chosen.now v) (number_at others.now v)) }
{
    let mut layers = Vec::with_capacity(alloc, others.len())?;
    for k in 0..others.len() {
        let layer = Layer::selected(alloc, mask, &chosen[k], &others[k])?;
        layers.push(layer)?;
    }
    Ok(layers)
}

/// The layers of `old`, of which the low `bits` have the bits of `new` where the mask is 1.
pub(crate) fn merged_layers(
    alloc: Global,
    mask: &Layer,
    old: &[Layer],
    new: &[Layer],
    bits: usize,
) -> Result<Vec<Layer>, AllocError>
    requires room { bits ≤ length old.now }
    requires there { bits ≤ length new.now }
    requires old { AllOf (length mask.now) old.now }
    requires new { AllOf (length mask.now) new.now }
    ensures count { IfOk result (λ layers. length layers.items ≡ length old.now) }
    ensures long { IfOk result (λ layers. AllOf (length mask.now) layers.items) }
    ensures low { IfOk result (λ layers. (v : ℕ) → v < length mask.now → number_at (take bits layers.items) v ≡ cond (slice_index_or mask.now v false) (number_at (take bits new.now) v) (number_at (take bits old.now) v)) }
    ensures high { IfOk result (λ layers. drop bits layers.items ≡ drop bits old.now) }
{
    let mut layers = chosen_layers(alloc, mask, &new[..bits], &old[..bits])?;
    let high = &old[bits..];
    for layer in high {
        layers.push(layer.copy()?)?;
    }
    Ok(layers)
}

/// Whether two lists of as many layers are the same layer by layer.
pub(crate) fn same_layers(x: &[Layer], y: &[Layer]) -> bool
    requires { length x.now ≡ length y.now }
    ensures { IsTrue result ↔ x.now ≡ y.now }
{
    for k in 0..x.len() {
        if !x[k].equals(&y[k]) {
            return false;
        }
    }
    true
}

/// The number in processor `v` of `vps`.
pub(crate) fn number_in(layers: &[Layer], v: usize, vps: usize) -> u128
    requires narrow { length layers.now ≤ 128 }
    requires within { v < vps }
    requires long { AllOf vps layers.now }
    ensures { result ≡ number_at layers.now v }
{
    let mut number = 0;
    for k in (0..layers.len()).rev() {
        number = 2 * number + if layers[k].get(v) { 1 } else { 0 };
    }
    number
}

/// `width` layers that hold a number in each of `vps` processors, as far as its bits have layers. They take no words.
pub(crate) fn constant_layers(
    alloc: Global,
    width: usize,
    number: u128,
    vps: usize,
) -> Result<Vec<Layer>, AllocError>
    ensures width { IfOk result (λ layers. length layers.items ≡ width) }
    ensures long { IfOk result (λ layers. AllOf vps layers.items) }
    ensures numbers { IfOk result (λ layers. (v : ℕ) → v < vps → number_at layers.items v ≡ low width number) }
{
    let mut layers = Vec::with_capacity(alloc, width)?;
    let mut rest = number;
    for _ in 0..width {
        layers.push(Layer::filled(rest % 2 == 1, vps))?;
        rest /= 2;
    }
    Ok(layers)
}

/// Puts a number into processor `v` of `vps`, as far as its bits have planes.
pub(crate) fn put_number(planes: &mut [Plane], v: usize, number: u128, vps: usize)
    requires within { v < vps }
    requires long { AllOf vps planes.old }
    ensures long { AllOf vps planes.new }
    ensures number { number_at planes.new v ≡ low (length planes.old) number }
    ensures others { (u : ℕ) → u ≢ v → number_at planes.new u ≡ number_at planes.old u }
{
    let mut rest = number;
    for k in 0..planes.len() {
        planes[k].set(v, rest % 2 == 1);
        rest /= 2;
    }
}

/// Puts numbers into as many of `vps` processors from one on.
pub fn put_numbers(planes: &mut [Plane], from: usize, list: &[u128], vps: usize)
    requires within { from + length list.now ≤ vps }
    requires long { AllOf vps planes.old }
    ensures long { AllOf vps planes.new }
    ensures put { (i : ℕ) → i < length list.now → number_at planes.new (from + i) ≡ low (length planes.old) (slice_index list.now i) }
    ensures before { (u : ℕ) → u < from → number_at planes.new u ≡ number_at planes.old u }
    ensures after { (u : ℕ) → from + length list.now ≤ u → number_at planes.new u ≡ number_at planes.old u }
{
    for i in 0..list.len() {
        put_number(planes, from + i, list[i], vps);
    }
}
