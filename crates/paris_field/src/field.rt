//! Values of a key: a number for each processor, whose bits lie in planes.

ghost use Rattle.std.specs.Prelude.{◌≡◌, ◌↔◌, ℕ, ◌<◌, ◌≤◌, ◌+◌, ◌/◌, ◌%◌, ◌^◌, IfOk, IsTrue, None, OnOk, false, length, map, nat_le, position, replicate, slice_index, slice_index_or};
ghost use Rattle.paris_model.specs.Store.{bit, everywhere, low, stored};
ghost use Rattle.paris_field.specs.Fields.{AllFit, field_eq, operand, overwritten};
ghost use Rattle.paris_field.specs.Numbers.{AllOf, bit_in, value_of_planes, number_at};

use crate::blocks::{numbers_in, put_all, words_in};
use crate::planes::{
    address_layers, constant_layers, copy_layers, layers_of, merge_layers, merged_layers,
    number_in, planes_of, put_numbers, same_layers, zero_layers, zero_planes,
};
use crate::words::{put_all_words, put_words_from, words_of};
use paris_layer::Layer;
use paris_plane::Plane;
use std::alloc::{AllocError, Global};
use std::marker::Model;

/// A number below `2 ^ width` for each processor of a set, by send address. A clause sees the width and the numbers.
#[derive(Debug, Drop)]
pub struct FieldValue {
    planes: Vec<Layer>,
    vps: usize,
}

impl Model for FieldValue {
    ghost use Rattle.std.specs.Prelude.{◌≤◌, length};
    ghost use Rattle.paris_field.specs.Fields.{FieldNumbers};
    ghost use Rattle.paris_field.specs.Numbers.{AllOf, value_of_planes};

    ghost Value = { FieldNumbers };

    ghost view = { λ a. value_of_planes a.vps a.planes.items };

    ghost invariant = { λ a. (length a.planes.items ≤ 128) × AllOf a.vps a.planes.items };
}

impl FieldValue {
    /// The value of this width in bits, up to 128, with a zero in each of `vps` processors.
    pub fn zeros(alloc: Global, width: u64, vps: usize) -> Result<FieldValue, AllocError>
        requires narrow { width ≤ 128 }
        ensures { IfOk result (λ value. value ≡ record { width = width; numbers = replicate vps 0 }) }
    {
        let planes = zero_layers(alloc, width as usize, vps)?;
        Ok(FieldValue { planes, vps })
    }

    /// The value of this width in bits, up to 128, with the same number in each of `vps` processors.
    pub fn constant(
        alloc: Global,
        width: u64,
        number: u128,
        vps: usize,
    ) -> Result<FieldValue, AllocError>
        requires narrow { width ≤ 128 }
        requires fits { number < 2 ^ width }
        ensures { IfOk result (λ value. value ≡ record { width = width; numbers = replicate vps number }) }
    {
        let planes = constant_layers(alloc, width as usize, number, vps)?;
        Ok(FieldValue { planes, vps })
    }

    /// The value of this width in bits, up to 128, in whose low bits each of `vps` processors holds `count` bits of its own
    /// address, from bit `from` on.
    pub fn address_bits(
        alloc: Global,
        width: u64,
        from: u64,
        count: u64,
        vps: usize,
    ) -> Result<FieldValue, AllocError>
        requires narrow { width ≤ 128 }
        requires room { count ≤ width }
        requires within { from + count ≤ 64 }
        ensures { IfOk result (λ value. value ≡ record { width = width; numbers = everywhere vps (λ v. v / 2 ^ from % 2 ^ count) }) }
    {
        let planes = address_layers(alloc, width, from, count, vps)?;
        Ok(FieldValue { planes, vps })
    }

    /// The value of this width in bits with these numbers.
    pub fn from_numbers(
        alloc: Global,
        width: u64,
        numbers: &[u128],
    ) -> Result<FieldValue, AllocError>
        requires narrow { width ≤ 128 }
        requires fit { AllFit width numbers.now }
        ensures { IfOk result (λ value. value ≡ record { width = width; numbers = numbers.now }) }
    {
        let vps = numbers.len();
        let mut planes = zero_planes(alloc, width as usize, vps)?;
        put_all(&mut planes, numbers);
        FieldValue::from_planes(planes, vps)
    }

    /// The value of this width in bits, up to 128, with these numbers, each a word.
    pub fn from_words(alloc: Global, width: u64, words: &[u64]) -> Result<FieldValue, AllocError>
        requires narrow { width ≤ 128 }
        requires fit { AllFit width words.now }
        ensures { IfOk result (λ value. value ≡ record { width = width; numbers = words.now }) }
    {
        let vps = words.len();
        let mut planes = zero_planes(alloc, width as usize, vps)?;
        put_all_words(&mut planes, words);
        FieldValue::from_planes(planes, vps)
    }

    /// The place of the first number that doesn't fit this width in bits, up to 128.
    pub fn first_too_wide(width: u64, numbers: &[u128]) -> Option<usize>
        requires { width ≤ 128 }
        ensures place { result ≡ position (λ x. nat_le (2 ^ width) x) numbers.now }
        ensures fit { result ≡ None → AllFit width numbers.now }
    {
        numbers.iter().position(|x| is_too_wide(width, *x))
    }

    /// The place of the first word that doesn't fit this width in bits.
    pub fn first_word_too_wide(width: u64, words: &[u64]) -> Option<usize>
        ensures place { result ≡ position (λ x. nat_le (2 ^ width) x) words.now }
        ensures fit { result ≡ None → AllFit width words.now }
    {
        words.iter().position(|x| is_word_too_wide(width, *x))
    }

    /// The value whose bits are these planes, the lowest first, each with a bit for each of `vps` processors. Fails only for want of
    /// memory.
    pub fn from_planes(planes: Vec<Plane>, vps: usize) -> Result<FieldValue, AllocError>
        requires narrow { length planes.items ≤ 128 }
        requires long { AllOf vps planes.items }
        ensures { IfOk result (λ value. value ≡ value_of_planes vps planes.items) }
    {
        let planes = layers_of(*planes.allocator(), planes)?;
        Ok(FieldValue { planes, vps })
    }

    /// The value whose bits are these layers, the lowest first, each with a bit for each of `vps` processors.
    pub fn from_layers(layers: Vec<Layer>, vps: usize) -> FieldValue
        requires narrow { length layers.items ≤ 128 }
        requires long { AllOf vps layers.items }
        ensures { result ≡ value_of_planes vps layers.items }
    {
        FieldValue {
            planes: layers,
            vps,
        }
    }

    /// The value of width 1 whose numbers are the bits of a layer.
    pub fn from_layer(alloc: Global, layer: Layer) -> Result<FieldValue, AllocError>
        ensures { IfOk result (λ value. value ≡ record { width = 1; numbers = map bit layer }) }
    {
        let vps = layer.len();
        let mut planes = Vec::with_capacity(alloc, 1)?;
        planes.push(layer)?;
        Ok(FieldValue { planes, vps })
    }

    /// The width in bits.
    pub fn width(&self) -> u64
        ensures value { result ≡ self.now.width }
        ensures narrow { result ≤ 128 }
    {
        self.planes.len() as u64
    }

    /// How many processors there are.
    pub fn len(&self) -> usize
        ensures { result ≡ length self.now.numbers }
    {
        self.vps
    }

    /// The number in a processor.
    pub fn get(&self, v: usize) -> u128
        requires { v < length self.now.numbers }
        ensures value { result ≡ slice_index self.now.numbers v }
        ensures fits { result < 2 ^ self.now.width }
    {
        number_in(&self.planes, v, self.vps)
    }

    /// All numbers, by processor.
    pub fn numbers(&self) -> Result<Vec<u128>, AllocError>
        ensures value { IfOk result (λ numbers. numbers.items ≡ self.now.numbers) }
        ensures fit { IfOk result (λ _. AllFit self.now.width self.now.numbers) }
    {
        numbers_in(*self.planes.allocator(), &self.planes, self.vps)
    }

    /// All numbers, of up to 64 bits, by processor, each a word.
    pub fn words(&self) -> Result<Vec<u64>, AllocError>
        requires { self.now.width ≤ 64 }
        ensures value { IfOk result (λ words. words.items ≡ self.now.numbers) }
        ensures fit { IfOk result (λ _. AllFit self.now.width self.now.numbers) }
    {
        words_in(*self.planes.allocator(), &self.planes, self.vps)
    }

    /// The low `bits` bits of each number, up to 64, by processor, each a word.
    pub fn low_words(&self, bits: u64) -> Result<Vec<u64>, AllocError>
        requires room { bits ≤ self.now.width }
        requires narrow { bits ≤ 64 }
        ensures value { IfOk result (λ words. words.items ≡ everywhere (length self.now.numbers) (operand bits self.now)) }
        ensures fit { IfOk result (λ words. AllFit bits words.items) }
    {
        words_in(*self.planes.allocator(), self.low(bits), self.vps)
    }

    /// A copy with these numbers in place of as many from a processor on.
    pub fn with_numbers(&self, from: usize, numbers: &[u128]) -> Result<FieldValue, AllocError>
        requires within { from + length numbers.now ≤ length self.now.numbers }
        requires fit { AllFit self.now.width numbers.now }
        ensures { IfOk result (λ value. value ≡ record { width = self.now.width; numbers = overwritten self.now.numbers from numbers.now }) }
    {
        let alloc = *self.planes.allocator();
        if self.planes.len() <= 64 {
            let words = words_of(alloc, numbers)?;
            return self.with_words(from, &words);
        }
        let mut planes = planes_of(alloc, &self.planes)?;
        put_numbers(&mut planes, from, numbers, self.vps);
        FieldValue::from_planes(planes, self.vps)
    }

    /// A copy with these numbers, each of one word, in place of as many from a processor on.
    pub fn with_words(&self, from: usize, words: &[u64]) -> Result<FieldValue, AllocError>
        requires within { from + length words.now ≤ length self.now.numbers }
        requires fit { AllFit self.now.width words.now }
        ensures { IfOk result (λ value. value ≡ record { width = self.now.width; numbers = overwritten self.now.numbers from words.now }) }
    {
        if words.len() == self.vps {
            return FieldValue::from_words(*self.planes.allocator(), self.width(), words);
        }
        let mut planes = planes_of(*self.planes.allocator(), &self.planes)?;
        put_words_from(&mut planes, from, words, self.vps);
        FieldValue::from_planes(planes, self.vps)
    }

    /// Whether both have the same width and the same numbers.
    pub fn equals(&self, other: &FieldValue) -> bool
        ensures value { result ≡ field_eq self.now other.now }
        ensures same { IsTrue result ↔ (self.now ≡ other.now) }
    {
        self.agrees(other)
    }

    fn agrees(&self, other: &FieldValue) -> bool
        ensures { IsTrue result ↔ (self.now ≡ other.now) }
    {
        if self.vps != other.vps {
            return false;
        }
        if self.planes.len() != other.planes.len() {
            return false;
        }
        same_layers(&self.planes, &other.planes)
    }

    /// A copy that equals the value.
    pub fn copy(&self) -> Result<FieldValue, AllocError>
        ensures { IfOk result (λ value. value ≡ self.now) }
    {
        let planes = copy_layers(*self.planes.allocator(), &self.planes)?;
        Ok(FieldValue {
            planes,
            vps: self.vps,
        })
    }

    /// The planes, the lowest first: a plane for each bit of the width, with a bit for each processor.
    pub fn planes(&self) -> &[Layer]
        ensures count { length result.now ≡ self.now.width }
        ensures long { AllOf (length self.now.numbers) result.now }
        ensures value { value_of_planes (length self.now.numbers) result.now ≡ self.now }
        ensures at { (v : ℕ) → v < length self.now.numbers → number_at result.now v ≡ slice_index self.now.numbers v }
    {
        self.planes.as_slice()
    }

    /// The planes of the low `bits` bits.
    pub fn low(&self, bits: u64) -> &[Layer]
        requires { bits ≤ self.now.width }
        ensures count { length result.now ≡ bits }
        ensures long { AllOf (length self.now.numbers) result.now }
        ensures at { (v : ℕ) → v < length self.now.numbers → number_at result.now v ≡ low bits (slice_index self.now.numbers v) }
        ensures fit { AllFit self.now.width self.now.numbers }
    {
        &self.planes[..bits as usize]
    }

    /// The plane of bit k.
    pub fn plane(&self, k: u64) -> &Layer
        requires { k < self.now.width }
        ensures long { length result.now ≡ length self.now.numbers }
        ensures at { (v : ℕ) → v < length self.now.numbers → bit_in result.now v ≡ slice_index self.now.numbers v / 2 ^ k % 2 }
    {
        &self.planes[k as usize]
    }

    /// The plane of a value of width 1: its bits are the numbers.
    pub fn mask(&self) -> &Layer
        requires { self.now.width ≡ 1 }
        ensures { map bit result.now ≡ self.now.numbers }
    {
        &self.planes[0]
    }

    /// A copy with the low `bits` bits of the numbers that `other` holds where the mask is 1.
    pub fn merged(&self, mask: &Layer, other: &[Layer], bits: u64) -> Result<FieldValue, AllocError>
        requires room { bits ≤ self.now.width }
        requires there { bits ≤ length other.now }
        requires mask { length mask.now ≡ length self.now.numbers }
        requires others { AllOf (length self.now.numbers) other.now }
        ensures width { IfOk result (λ value. value.width ≡ self.now.width) }
        ensures count { IfOk result (λ value. length value.numbers ≡ length self.now.numbers) }
        ensures numbers { IfOk result (λ value. value.numbers ≡ stored (length self.now.numbers) (λ v. slice_index_or mask.now v false) (slice_index self.now.numbers) bits (number_at other.now)) }
    {
        let alloc = *self.planes.allocator();
        let planes = merged_layers(alloc, mask, &self.planes, other, bits as usize)?;
        Ok(FieldValue {
            planes,
            vps: self.vps,
        })
    }

    /// Puts the low `bits` bits of the numbers that `other` holds where the mask is 1. Where it is 0 nothing changes. Fails only for want
    /// of memory; the numbers then mean nothing.
    pub fn merge_in(&mut self, mask: &Layer, other: &[Layer], bits: u64) -> Result<(), AllocError>
        requires room { bits ≤ self.old.width }
        requires there { bits ≤ length other.now }
        requires mask { length mask.now ≡ length self.old.numbers }
        requires others { AllOf (length self.old.numbers) other.now }
        ensures width { self.new.width ≡ self.old.width }
        ensures count { length self.new.numbers ≡ length self.old.numbers }
        ensures numbers { OnOk result (self.new.numbers ≡ stored (length self.old.numbers) (λ v. slice_index_or mask.now v false) (slice_index self.old.numbers) bits (number_at other.now)) }
    {
        let alloc = *self.planes.allocator();
        merge_layers(alloc, &mut self.planes, mask, other, bits as usize)
    }
}

/// Whether a number needs more bits than a width has.
fn is_too_wide(width: u64, number: u128) -> bool
    requires { width ≤ 128 }
    ensures { result ≡ nat_le (2 ^ width) number }
{
    width < 128 && number >= 1u128 << width
}

/// Whether a word needs more bits than a width has.
fn is_word_too_wide(width: u64, word: u64) -> bool
    ensures { result ≡ nat_le (2 ^ width) word }
{
    width < 64 && word >= 1u64 << width
}
