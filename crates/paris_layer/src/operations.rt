//! Operations on the bits of two and of three layers.

ghost use Rattle.std.specs.Prelude.{◌≡◌, IfOk, OnErr, OnOk, cond, length, map, not};
ghost use Rattle.std.specs.Simd.Lanes.{zip2};
ghost use Rattle.paris_plane.specs.Bits.{zip3};

use crate::layer::{Form, Layer};
use paris_plane::{Plane, Select, TripleOp, WordOp, bit_of_three, bit_of_two};
use std::alloc::{AllocError, Global};

/// One bit for each 0 of a plane and one for each 1.
fn applied(plane: &Plane, alloc: Global, zero: bool, one: bool) -> Result<Layer, AllocError>
    ensures { IfOk result (λ l. l ≡ map (λ b. cond b one zero) plane.now) }
{
    if zero == one {
        return Ok(Layer::filled(zero, plane.len()));
    }
    if one {
        return Ok(Layer::from_plane(plane.copy()?));
    }
    let made = Plane::inverted(alloc, plane)?;
    Ok(Layer::from_plane(made))
}

impl Layer {
    /// What the operation makes of each two bits. Fails only for want of memory.
    #[inline(always)]
    pub fn combined<O: WordOp>(alloc: Global, x: &Layer, y: &Layer) -> Result<Layer, AllocError>
        requires { length x.now ≡ length y.now }
        ensures { IfOk result (λ l. l ≡ zip2 O.bit x.now y.now) }
    {
        if let (Form::Words(xs), Form::Words(ys)) = (&x.form, &y.form) {
            let made = Plane::combined::<O>(alloc, xs, ys)?;
            return Ok(Layer::from_plane(made));
        }
        let made = Layer::combined_forms::<O>(alloc, x, y)?;
        Ok(made)
    }

    /// The same, whatever forms they have.
    fn combined_forms<O: WordOp>(alloc: Global, x: &Layer, y: &Layer) -> Result<Layer, AllocError>
        requires { length x.now ≡ length y.now }
        ensures { IfOk result (λ l. l ≡ zip2 O.bit x.now y.now) }
    {
        match (&x.form, &y.form) {
            (Form::Words(x), Form::Words(y)) => {
                let made = Plane::combined::<O>(alloc, x, y)?;
                Ok(Layer::from_plane(made))
            }
            (Form::Words(x), Form::Same(_, b)) => applied(
                x,
                alloc,
                bit_of_two::<O>(false, *b),
                bit_of_two::<O>(true, *b),
            ),
            (Form::Same(_, a), Form::Words(y)) => applied(
                y,
                alloc,
                bit_of_two::<O>(*a, false),
                bit_of_two::<O>(*a, true),
            ),
            (Form::Same(len, a), Form::Same(_, b)) => {
                Ok(Layer::filled(bit_of_two::<O>(*a, *b), *len))
            }
        }
    }

    /// What the operation makes of each three bits. Fails only for want of memory.
    #[inline(always)]
    pub fn combined_triple<O: TripleOp>(
        alloc: Global,
        x: &Layer,
        y: &Layer,
        z: &Layer,
    ) -> Result<Layer, AllocError>
        requires second { length x.now ≡ length y.now }
        requires third { length x.now ≡ length z.now }
        ensures { IfOk result (λ l. l ≡ zip3 O.bit x.now y.now z.now) }
    {
        if let (Form::Words(xs), Form::Words(ys), Form::Words(zs)) = (&x.form, &y.form, &z.form) {
            let made = Plane::combined_triple::<O>(alloc, xs, ys, zs)?;
            return Ok(Layer::from_plane(made));
        }
        let made = Layer::combined_three_forms::<O>(alloc, x, y, z)?;
        Ok(made)
    }

    /// The same, whatever forms they have.
    fn combined_three_forms<O: TripleOp>(
        alloc: Global,
        x: &Layer,
        y: &Layer,
        z: &Layer,
    ) -> Result<Layer, AllocError>
        requires second { length x.now ≡ length y.now }
        requires third { length x.now ≡ length z.now }
        ensures { IfOk result (λ l. l ≡ zip3 O.bit x.now y.now z.now) }
    {
        match (&x.form, &y.form, &z.form) {
            (Form::Same(len, a), Form::Same(_, b), Form::Same(_, c)) => {
                Ok(Layer::filled(bit_of_three::<O>(*a, *b, *c), *len))
            }
            (Form::Same(_, a), Form::Same(_, b), Form::Words(z)) => applied(
                z,
                alloc,
                bit_of_three::<O>(*a, *b, false),
                bit_of_three::<O>(*a, *b, true),
            ),
            _ => {
                let x = x.lent(alloc)?;
                let y = y.lent(alloc)?;
                let z = z.lent(alloc)?;
                let made = Plane::combined_triple::<O>(alloc, x.plane(), y.plane(), z.plane())?;
                Ok(Layer::from_plane(made))
            }
        }
    }

    /// The bits of `chosen` where `mask` is 1, and those of `others` elsewhere. Fails only for want of memory.
    pub fn selected(
        alloc: Global,
        mask: &Layer,
        chosen: &Layer,
        others: &Layer,
    ) -> Result<Layer, AllocError>
        requires chosen { length others.now ≡ length chosen.now }
        requires mask { length others.now ≡ length mask.now }
        ensures { IfOk result (λ l. l ≡ zip3 (λ x y m. cond m y x) others.now chosen.now mask.now) }
    {
        if let Form::Same(_, bit) = &mask.form {
            return if *bit { chosen.copy() } else { others.copy() };
        }
        Layer::combined_triple::<Select>(alloc, others, chosen, mask)
    }

    /// Puts the bits of `chosen` where `mask` is 1. Fails only for want of memory, where one of them has no words; all then stays as it
    /// was.
    pub fn select_in(
        &mut self,
        alloc: Global,
        mask: &Layer,
        chosen: &Layer,
    ) -> Result<(), AllocError>
        requires mask { length self.old ≡ length mask.now }
        requires chosen { length self.old ≡ length chosen.now }
        ensures ok { OnOk result (self.new ≡ zip3 (λ x y m. cond m y x) self.old chosen.now mask.now) }
        ensures err { OnErr result (self.new ≡ self.old) }
    {
        if let Form::Same(_, bit) = &mask.form {
            if *bit {
                *self = chosen.copy()?;
            }
            return Ok(());
        }
        self.put_triple::<Select>(alloc, chosen, mask)
    }

    /// Another layer with every bit turned. Fails only for want of memory.
    pub fn inverted(alloc: Global, x: &Layer) -> Result<Layer, AllocError>
        ensures { IfOk result (λ l. l ≡ map not x.now) }
    {
        let form = match &x.form {
            Form::Same(len, bit) => Form::Same(*len, !*bit),
            Form::Words(plane) => Form::Words(Plane::inverted(alloc, plane)?),
        };
        Ok(Layer { form })
    }

    /// Puts what the operation makes of each bit and that of `other` in its place. Fails only for want of memory, where one of them has
    /// no words; all then stays as it was.
    pub fn put<O: WordOp>(&mut self, alloc: Global, other: &Layer) -> Result<(), AllocError>
        requires { length self.old ≡ length other.now }
        ensures ok { OnOk result (self.new ≡ zip2 O.bit self.old other.now) }
        ensures err { OnErr result (self.new ≡ self.old) }
    {
        match &other.form {
            Form::Same(_, b) => {
                self.apply(bit_of_two::<O>(false, *b), bit_of_two::<O>(true, *b));
                Ok(())
            }
            Form::Words(y) => self.put_plane::<O>(alloc, y),
        }
    }

    /// Puts what the operation makes of each bit and that of a plane in its place.
    fn put_plane<O: WordOp>(&mut self, alloc: Global, y: &Plane) -> Result<(), AllocError>
        requires { length self.old ≡ length y.now }
        ensures ok { OnOk result (self.new ≡ zip2 O.bit self.old y.now) }
        ensures err { OnErr result (self.new ≡ self.old) }
    {
        match &mut self.form {
            Form::Words(x) => {
                x.put::<O>(y);
                Ok(())
            }
            Form::Same(_, a) => {
                let zero = bit_of_two::<O>(*a, false);
                let one = bit_of_two::<O>(*a, true);
                *self = applied(y, alloc, zero, one)?;
                Ok(())
            }
        }
    }

    /// Puts what the operation makes of each bit and those of `y` and `z` in its place. Fails only for want of memory, where one of them
    /// has no words; all then stays as it was.
    pub fn put_triple<O: TripleOp>(
        &mut self,
        alloc: Global,
        y: &Layer,
        z: &Layer,
    ) -> Result<(), AllocError>
        requires second { length self.old ≡ length y.now }
        requires third { length self.old ≡ length z.now }
        ensures ok { OnOk result (self.new ≡ zip3 O.bit self.old y.now z.now) }
        ensures err { OnErr result (self.new ≡ self.old) }
    {
        if let (Form::Same(_, b), Form::Same(_, c)) = (&y.form, &z.form) {
            self.apply(
                bit_of_three::<O>(false, *b, *c),
                bit_of_three::<O>(true, *b, *c),
            );
            return Ok(());
        }
        if let Form::Words(x) = &mut self.form {
            if let (Form::Words(ys), Form::Words(zs)) = (&y.form, &z.form) {
                x.put_triple::<O>(ys, zs);
                return Ok(());
            }
            let y = y.lent(alloc)?;
            let z = z.lent(alloc)?;
            x.put_triple::<O>(y.plane(), z.plane());
            return Ok(());
        }
        *self = Layer::combined_triple::<O>(alloc, self, y, z)?;
        Ok(())
    }
}
