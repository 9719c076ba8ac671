//! A bit for each virtual processor: in words, or one bit for all of them.

ghost use Rattle.std.specs.Prelude.{◌≡◌, ◌↔◌, ℕ, ◌+◌, ◌*◌, ◌<◌, IfOk, IfSome, IsTrue, cond, false, length, map, not, replicate, slice_index_or};
ghost use Rattle.paris_plane.specs.Bits.{word_bit};
ghost use Rattle.paris_layer.specs.Forms.{form_bits, owned_bits};

use paris_plane::{Plane, word_of};
use std::alloc::{AllocError, Global};
use std::marker::Model;

/// How the bits of a layer are kept.
#[derive(Debug, Drop)]
pub(crate) enum Form {
    /// So many bits that are all the same. They take no words.
    Same(usize, bool),
    /// In words.
    Words(Plane),
}

/// Whose the words are that are lent.
#[derive(Debug, Drop)]
pub(crate) enum Owner<'a> {
    /// They were made for this one use.
    Made(Plane),
    /// They are a layer's own.
    Of(&'a Plane),
}

/// The bits of a layer in words, for one use. A clause sees the list of the bits.
#[derive(Debug, Drop)]
pub struct Lent<'a> {
    owner: Owner<'a>,
}

impl<'a> Model for Lent<'a> {
    ghost use Rattle.std.specs.Prelude.{List, Bool};
    ghost use Rattle.paris_layer.specs.Forms.{owned_bits};

    ghost Value = { List Bool };

    ghost view = { λ l. owned_bits l.owner };
}

impl Lent<'_> {
    /// The plane.
    #[inline(always)]
    pub fn plane(&self) -> &Plane
        ensures { result.now ≡ self.now }
    {
        match &self.owner {
            Owner::Made(plane) => plane,
            Owner::Of(plane) => plane,
        }
    }
}

/// Bits, one for each virtual processor, that of processor 0 first. Where they are all the same, they may take no words. A clause sees
/// the list of the bits.
#[derive(Debug, Drop)]
pub struct Layer {
    pub(crate) form: Form,
}

impl Model for Layer {
    ghost use Rattle.std.specs.Prelude.{List, Bool};
    ghost use Rattle.paris_layer.specs.Forms.{form_bits};

    ghost Value = { List Bool };

    ghost view = { λ l. form_bits l.form };
}

impl Layer {
    /// So many bits that are all the same. It takes no memory.
    #[inline(always)]
    pub fn filled(bit: bool, len: usize) -> Layer
        ensures { result ≡ replicate len bit }
    {
        Layer {
            form: Form::Same(len, bit),
        }
    }

    /// The bits of a plane, whose words go where all bits are the same.
    #[inline(always)]
    pub fn from_plane(plane: Plane) -> Layer
        ensures { result ≡ plane }
    {
        if plane.len() >= 64 {
            let first = plane.word(0);
            if first != 0 && first != u64::MAX {
                return Layer {
                    form: Form::Words(plane),
                };
            }
        }
        Layer::looked_at(plane)
    }

    /// The bits of a plane, which is looked at to where its bits differ.
    fn looked_at(plane: Plane) -> Layer
        ensures { result ≡ plane }
    {
        let len = plane.len();
        if len > 0 {
            let bit = plane.get(0);
            if plane.is_all(bit) {
                return Layer::filled(bit, len);
            }
        }
        Layer {
            form: Form::Words(plane),
        }
    }

    /// The number of bits.
    #[inline(always)]
    pub fn len(&self) -> usize
        ensures { result ≡ length self.now }
    {
        match &self.form {
            Form::Same(len, _) => *len,
            Form::Words(plane) => plane.len(),
        }
    }

    /// The bit of processor `v`.
    #[inline(always)]
    pub fn get(&self, v: usize) -> bool
        requires { v < length self.now }
        ensures { result ≡ slice_index_or self.now v false }
    {
        match &self.form {
            Form::Same(_, bit) => *bit,
            Form::Words(plane) => plane.get(v),
        }
    }

    /// The 64 bits from `64 * block` on, the first of them lowest. Those past the end mean nothing.
    #[inline(always)]
    pub fn word(&self, block: usize) -> u64
        requires { 64 * block < length self.now }
        ensures { (i : ℕ) → i < 64 → 64 * block + i < length self.now → word_bit result i ≡ slice_index_or self.now (64 * block + i) false }
    {
        match &self.form {
            Form::Same(_, bit) => word_of(*bit),
            Form::Words(plane) => plane.word(block),
        }
    }

    /// Whether every bit is this one.
    pub fn is_all(&self, bit: bool) -> bool
        ensures { IsTrue result ↔ self.now ≡ replicate (length self.now) bit }
    {
        match &self.form {
            Form::Same(len, same) => *len == 0 || *same == bit,
            Form::Words(plane) => plane.is_all(bit),
        }
    }

    /// Whether both have the same length and the same bits.
    pub fn equals(&self, other: &Layer) -> bool
        ensures { IsTrue result ↔ self.now ≡ other.now }
    {
        match (&self.form, &other.form) {
            (Form::Words(x), Form::Words(y)) => x.equals(y),
            (Form::Same(len, a), Form::Words(y)) => y.len() == *len && y.is_all(*a),
            (Form::Words(x), Form::Same(len, b)) => x.len() == *len && x.is_all(*b),
            (Form::Same(n, a), Form::Same(m, b)) => *n == *m && (*n == 0 || *a == *b),
        }
    }

    /// Another layer with the same bits. Fails only for want of memory.
    pub fn copy(&self) -> Result<Layer, AllocError>
        ensures { IfOk result (λ l. l ≡ self.now) }
    {
        let form = match &self.form {
            Form::Same(len, bit) => Form::Same(*len, *bit),
            Form::Words(plane) => Form::Words(plane.copy()?),
        };
        Ok(Layer { form })
    }

    /// The bits in words, which are made where there are none. Fails only for want of memory.
    #[inline(always)]
    pub fn lent(&self, alloc: Global) -> Result<Lent<'_>, AllocError>
        ensures { IfOk result (λ lent. lent ≡ self.now) }
    {
        let owner = match &self.form {
            Form::Same(len, bit) => Owner::Made(Plane::filled(alloc, *bit, *len)?),
            Form::Words(plane) => Owner::Of(plane),
        };
        Ok(Lent { owner })
    }

    /// The bits in words of their own. Fails only for want of memory.
    pub fn to_plane(&self, alloc: Global) -> Result<Plane, AllocError>
        ensures { IfOk result (λ plane. plane ≡ self.now) }
    {
        match &self.form {
            Form::Same(len, bit) => Plane::filled(alloc, *bit, *len),
            Form::Words(plane) => plane.copy(),
        }
    }

    /// The layer's own words, which are made where there are none. Fails only for want of memory.
    pub fn into_plane(self, alloc: Global) -> Result<Plane, AllocError>
        ensures { IfOk result (λ plane. plane ≡ self) }
    {
        match self.form {
            Form::Same(len, bit) => Plane::filled(alloc, bit, len),
            Form::Words(plane) => Ok(plane),
        }
    }

    /// Turns every bit. It takes no memory.
    pub fn not_in(&mut self)
        ensures { self.new ≡ map not self.old }
    {
        match &mut self.form {
            Form::Same(_, bit) => *bit = !*bit,
            Form::Words(plane) => plane.not_in(),
        }
    }

    /// Puts one bit for each 0 and one for each 1. It takes no memory.
    pub(crate) fn apply(&mut self, zero: bool, one: bool)
        ensures { self.new ≡ map (λ b. cond b one zero) self.old }
    {
        if zero == one {
            *self = Layer::filled(zero, self.len());
        } else if zero {
            self.not_in();
        }
    }
}
