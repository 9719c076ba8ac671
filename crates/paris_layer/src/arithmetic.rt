//! Steps of additions and subtractions of numbers whose bits lie in layers.

ghost use Rattle.std.specs.Prelude.{◌≡◌, Bool, IfOk, OnErr, cond, length, not};
ghost use Rattle.std.specs.Simd.Lanes.{zip2};
ghost use Rattle.paris_plane.specs.Bits.{borrow_bit, carry_bit, differ, sum_bit, zip3};

use crate::layer::{Form, Layer};
use paris_plane::{And, Or, Plane, Without, Xor};
use std::alloc::{AllocError, Global};

/// What a step makes: a bit of the result in each place, and one that goes to the next place.
struct Step {
    result: Layer,
    next: Layer,
}

/// Where one bit or the other is 1 and not both, each turned if `turned`.
fn differing(alloc: Global, turned: bool, x: &Layer, y: &Layer) -> Result<Layer, AllocError>
    requires { length x.now ≡ length y.now }
    ensures { IfOk result (λ l. l ≡ zip2 (sum_bit turned) x.now y.now) }
{
    let mut made = Layer::combined::<Xor>(alloc, x, y)?;
    if turned {
        made.not_in();
        return Ok(made);
    }
    Ok(made)
}

/// Adds a bit that is the same in all places to two others.
fn sum_with(alloc: Global, bit: bool, x: &Layer, y: &Layer) -> Result<Step, AllocError>
    requires { length x.now ≡ length y.now }
    ensures sums { IfOk result (λ step. step.result ≡ zip2 (sum_bit bit) x.now y.now) }
    ensures carries { IfOk result (λ step. step.next ≡ zip2 (carry_bit bit) x.now y.now) }
{
    let result = differing(alloc, bit, x, y)?;
    if bit {
        let next = Layer::combined::<Or>(alloc, x, y)?;
        return Ok(Step { result, next });
    }
    let next = Layer::combined::<And>(alloc, x, y)?;
    Ok(Step { result, next })
}

/// Adds a bit that is the same in all places to those of `x` and of `carry`, and puts there what they carry.
fn add_bit(alloc: Global, bit: bool, x: &Layer, carry: &mut Layer) -> Result<Layer, AllocError>
    requires { length x.now ≡ length carry.old }
    ensures long { length carry.new ≡ length carry.old }
    ensures sums { IfOk result (λ l. l ≡ zip2 (sum_bit bit) x.now carry.old) }
    ensures carries { IfOk result (λ _. carry.new ≡ zip2 (carry_bit bit) x.now carry.old) }
{
    let sum = differing(alloc, bit, x, carry)?;
    if bit {
        carry.put::<Or>(alloc, x)?;
        return Ok(sum);
    }
    carry.put::<And>(alloc, x)?;
    Ok(sum)
}

/// Takes the bits of `y` and of `borrow` from one that is the same in all places, and puts there what they borrow.
fn take_from_bit(
    alloc: Global,
    bit: bool,
    y: &Layer,
    borrow: &mut Layer,
) -> Result<Layer, AllocError>
    requires { length y.now ≡ length borrow.old }
    ensures long { length borrow.new ≡ length borrow.old }
    ensures differences { IfOk result (λ l. l ≡ zip2 (sum_bit bit) y.now borrow.old) }
    ensures borrows { IfOk result (λ _. borrow.new ≡ zip2 (λ y b. borrow_bit b bit y) y.now borrow.old) }
{
    let difference = differing(alloc, bit, y, borrow)?;
    if bit {
        borrow.put::<And>(alloc, y)?;
        return Ok(difference);
    }
    borrow.put::<Or>(alloc, y)?;
    Ok(difference)
}

/// Takes from the bits of `x` one that is the same in all places and those of `borrow`, and puts there what they borrow.
fn take_bit(alloc: Global, bit: bool, x: &Layer, borrow: &mut Layer) -> Result<Layer, AllocError>
    requires { length x.now ≡ length borrow.old }
    ensures long { length borrow.new ≡ length borrow.old }
    ensures differences { IfOk result (λ l. l ≡ zip2 (sum_bit bit) x.now borrow.old) }
    ensures borrows { IfOk result (λ _. borrow.new ≡ zip2 (λ x b. borrow_bit b x bit) x.now borrow.old) }
{
    let difference = differing(alloc, bit, x, borrow)?;
    if bit {
        borrow.not_in();
        borrow.put::<And>(alloc, x)?;
        borrow.not_in();
        return Ok(difference);
    }
    borrow.put::<Without>(alloc, x)?;
    Ok(difference)
}

/// Takes from each bit of `x` that of `y` and one that is the same in all places.
fn difference_with(alloc: Global, bit: bool, x: &Layer, y: &Layer) -> Result<Step, AllocError>
    requires { length x.now ≡ length y.now }
    ensures differences { IfOk result (λ step. step.result ≡ zip2 (sum_bit bit) x.now y.now) }
    ensures borrows { IfOk result (λ step. step.next ≡ zip2 (borrow_bit bit) x.now y.now) }
{
    let result = differing(alloc, bit, x, y)?;
    if bit {
        let mut next = Layer::combined::<Without>(alloc, x, y)?;
        next.not_in();
        return Ok(Step { result, next });
    }
    let next = Layer::combined::<Without>(alloc, y, x)?;
    Ok(Step { result, next })
}

impl Layer {
    /// Adds three bits in each place, as one step of an addition of numbers whose bits lie in layers: their sums, and in `carry` what they
    /// carry. Fails only for want of memory; the carries then mean nothing.
    #[inline(always)]
    pub fn summed(
        alloc: Global,
        x: &Layer,
        y: &Layer,
        carry: &mut Layer,
    ) -> Result<Layer, AllocError>
        requires second { length x.now ≡ length y.now }
        requires carries { length x.now ≡ length carry.old }
        ensures long { length carry.new ≡ length carry.old }
        ensures sums { IfOk result (λ l. l ≡ zip3 sum_bit x.now y.now carry.old) }
        ensures carries { IfOk result (λ _. carry.new ≡ zip3 carry_bit x.now y.now carry.old) }
    {
        match (&x.form, &y.form) {
            (Form::Words(xs), Form::Words(ys)) => match &mut carry.form {
                Form::Words(carried) => {
                    let sum = Plane::summed(alloc, xs, ys, carried)?;
                    Ok(Layer::from_plane(sum))
                }
                Form::Same(_, bit) => {
                    let Step { result, next } = sum_with(alloc, *bit, x, y)?;
                    *carry = next;
                    Ok(result)
                }
            },
            (Form::Words(_), Form::Same(_, bit)) => add_bit(alloc, *bit, x, carry),
            (Form::Same(_, bit), _) => add_bit(alloc, *bit, y, carry),
        }
    }

    /// Takes two bits from a third in each place, as one step of a subtraction of numbers whose bits lie in layers: what is left of `x`
    /// without `y` and `borrow`, and in `borrow` what they borrow. Fails only for want of memory; the borrows then mean nothing.
    #[inline(always)]
    pub fn difference(
        alloc: Global,
        x: &Layer,
        y: &Layer,
        borrow: &mut Layer,
    ) -> Result<Layer, AllocError>
        requires second { length x.now ≡ length y.now }
        requires borrows { length x.now ≡ length borrow.old }
        ensures long { length borrow.new ≡ length borrow.old }
        ensures differences { IfOk result (λ l. l ≡ zip3 sum_bit x.now y.now borrow.old) }
        ensures borrows { IfOk result (λ _. borrow.new ≡ zip3 borrow_bit borrow.old x.now y.now) }
    {
        match (&x.form, &y.form) {
            (Form::Words(xs), Form::Words(ys)) => match &mut borrow.form {
                Form::Words(borrowed) => {
                    let difference = Plane::difference(alloc, xs, ys, borrowed)?;
                    Ok(Layer::from_plane(difference))
                }
                Form::Same(_, bit) => {
                    let Step { result, next } = difference_with(alloc, *bit, x, y)?;
                    *borrow = next;
                    Ok(result)
                }
            },
            (Form::Words(_), Form::Same(_, bit)) => take_bit(alloc, *bit, x, borrow),
            (Form::Same(_, bit), _) => take_from_bit(alloc, *bit, y, borrow),
        }
    }
}
