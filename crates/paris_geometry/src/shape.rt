//! The lengths of a set's axes.

ghost use Rattle.std.specs.Prelude.{◌≡◌, ◌<◌, ◌≤◌, ◌*◌, length, slice_index, true, false, IfOk, IfErr};
ghost use Rattle.std.specs.List.{list_all};
ghost use Rattle.paris_names.specs.declared.faults.Fault.TheVariants.{BadAxes};
ghost use Rattle.paris_geometry.specs.Geometry.{is_geometry, is_power_of_two, processor_count, product, stride, axis_length, coordinate, at_coordinate, neighbour_coordinate, neighbour, address, AreCoordinates};
ghost use Rattle.paris_names.specs.declared.limits.TheConstants.{MAX_AXES, MAX_PROCESSORS};

use crate::direction::Direction;
use paris_names::Fault;
use paris_names::limits::{MAX_AXES, MAX_PROCESSORS};
use std::marker::Model;

/// The lengths of the axes of a set of virtual processors, axis 0 first: 1 to 4 powers of two, whose product, the number
/// of processors, is at most 65,536. A clause sees the list of the lengths.
#[derive(Clone, Copy, PartialEq, Eq, Debug)]
pub struct Geometry {
    lengths: [u64; MAX_AXES],
    count: usize,
}

impl Model for Geometry {
    ghost use Rattle.paris_names.specs.declared.limits.TheConstants.{MAX_AXES};
    ghost use Rattle.std.specs.Prelude.{◌≡◌, ℕ, ◌≤◌, List, length, take, true};
    ghost use Rattle.paris_geometry.specs.Geometry.{is_geometry};
    ghost use Rattle.paris_geometry.specs.Buffer.{axes_buffer};

    ghost Value = { List ℕ };

    ghost view = { λ g. take g.count g.lengths };

    ghost invariant = { λ g. (g.count ≤ MAX_AXES) × (g.lengths ≡ axes_buffer (take g.count g.lengths)) × (is_geometry (take g.count g.lengths) ≡ true) };

    ghost inverse = { λ axes. record { lengths = axes_buffer axes; count = length axes } };

    ghost use Rattle.paris_geometry.specs.GeometryFields.{geometry_fields};

    ghost inverse_ok = { geometry_fields };
}

fn is_geometry(lengths: &[u64]) -> bool
    ensures value { result ≡ is_geometry lengths.now }
    ensures few { result ≡ true → length lengths.now ≤ MAX_AXES }
{
    if lengths.is_empty() || lengths.len() > MAX_AXES || !are_powers_of_two(lengths) {
        return false;
    }
    processor_count(lengths) <= u128::from(MAX_PROCESSORS)
}

fn are_powers_of_two(lengths: &[u64]) -> bool
    ensures { result ≡ list_all is_power_of_two lengths.now }
{
    lengths.iter().all(|n| is_power_of_two(*n))
}

/// Whether a length is one of the powers of two up to 65,536.
fn is_power_of_two(length: u64) -> bool
    ensures { result ≡ is_power_of_two length }
{
    matches!(
        length,
        1 | 2
            | 4
            | 8
            | 16
            | 32
            | 64
            | 128
            | 256
            | 512
            | 1024
            | 2048
            | 4096
            | 8192
            | 16384
            | 32768
            | 65536
    )
}

/// The product of at most four powers of two.
fn processor_count(lengths: &[u64]) -> u128
    requires few { length lengths.now ≤ MAX_AXES }
    requires powers { list_all is_power_of_two lengths.now ≡ true }
    ensures { result ≡ processor_count lengths.now }
{
    let mut count: u128 = 1;
    for length in lengths {
        count *= u128::from(*length);
    }
    count
}

impl Geometry {
    /// The geometry of the lengths of its axes, or `BadAxes` where they make none: there are none or more than four, one
    /// is no power of two up to 65,536, or their product is above 65,536.
    pub fn new(lengths: &[u64]) -> Result<Geometry, Fault>
        ensures ok { IfOk result (λ g. (is_geometry lengths.now ≡ true) × (g ≡ lengths.now)) }
        ensures err { IfErr result (λ fault. (is_geometry lengths.now ≡ false) × (fault ≡ BadAxes)) }
    {
        if !is_geometry(lengths) {
            return Err(Fault::BadAxes);
        }
        let mut buffer = [0u64; MAX_AXES];
        buffer[..lengths.len()].copy_from_slice(lengths);
        Ok(Geometry {
            lengths: buffer,
            count: lengths.len(),
        })
    }

    /// The length of an axis, in processors.
    pub fn len(self, axis: usize) -> u64
        requires { axis < length self }
        ensures { result ≡ slice_index self axis }
    {
        self.lengths()[axis]
    }

    /// How many axes there are, from 1 to 4.
    pub fn axes(self) -> usize
        ensures value { result ≡ length self }
        ensures few { result ≤ MAX_AXES }
        ensures sound { is_geometry self ≡ true }
    {
        self.count
    }

    /// How many virtual processors there are, from 1 to 65,536.
    pub fn vps(self) -> usize
        ensures value { result ≡ processor_count self }
        ensures few { result ≤ MAX_PROCESSORS }
        ensures sound { is_geometry self ≡ true }
    {
        processor_count(&self.lengths[..self.count]) as usize
    }

    /// The lengths of the axes, in processors, axis 0 first.
    pub fn lengths(&self) -> &[u64]
        ensures { result.now ≡ self.now }
    {
        &self.lengths[..self.count]
    }

    /// The coordinate of a processor on an axis, from 0.
    pub fn coordinate(self, processor: u32, axis: usize) -> u32
        requires { axis < length self }
        ensures value { result ≡ coordinate self axis processor }
        ensures small { result < axis_length self axis }
    {
        let place = u64::from(processor) / self.stride(axis) as u64;
        (place % self.len(axis)) as u32
    }

    /// The neighbour of a processor along an axis, which wraps round.
    pub fn neighbour(self, processor: u32, axis: usize, direction: Direction) -> u32
        requires axis { axis < length self }
        requires processor { processor < processor_count self }
        ensures value { result ≡ neighbour self axis direction processor }
        ensures small { result < processor_count self }
    {
        let own = self.coordinate(processor, axis);
        let next = next_coordinate(direction, self.len(axis), u64::from(own));
        self.at_coordinate(processor, axis, next)
    }

    /// The processor of a processor's line along an axis that has this coordinate.
    pub fn at_coordinate(self, processor: u32, axis: usize, coordinate: u64) -> u32
        requires axis { axis < length self }
        requires processor { processor < processor_count self }
        requires coordinate { coordinate < axis_length self axis }
        ensures value { result ≡ at_coordinate self axis processor coordinate }
        ensures small { result < processor_count self }
    {
        let stride = self.stride(axis) as u64;
        let own = self.coordinate(processor, axis);
        let first = u64::from(processor) - u64::from(own) * stride;
        (first + coordinate * stride) as u32
    }

    /// The processor that has these coordinates, one for each axis, axis 0 first.
    pub fn address(self, coordinates: &[u32]) -> u32
        requires { AreCoordinates self coordinates.now }
        ensures value { result ≡ address self coordinates.now }
        ensures small { result < processor_count self }
    {
        let mut address: u64 = 0;
        for axis in 0..self.axes() {
            address += u64::from(coordinates[axis]) * self.stride(axis) as u64;
        }
        address as u32
    }

    /// How far apart two neighbours along an axis are, in processors.
    pub fn stride(self, axis: usize) -> usize
        requires { axis < length self }
        ensures value { result ≡ stride self axis }
        ensures positive { 0 < stride self axis }
        ensures within { axis_length self axis * stride self axis ≤ processor_count self }
        ensures sound { is_geometry self ≡ true }
    {
        let lengths = &self.lengths[..self.count];
        processor_count(&lengths[..axis]) as usize
    }
}

/// The next coordinate in a direction on an axis of this length.
fn next_coordinate(direction: Direction, length: u64, own: u64) -> u64
    requires small { own < length }
    requires narrow { length ≤ MAX_PROCESSORS }
    ensures value { result ≡ neighbour_coordinate direction length own }
    ensures small { result < length }
{
    match direction {
        Direction::Upward => (own + 1) % length,
        Direction::Downward => (own + length - 1) % length,
    }
}
