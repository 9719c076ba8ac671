//! Quotients and remainders of unsigned numbers.

ghost use Rattle.std.specs.Prelude.{◌≡◌, ◌<◌, ◌≤◌, IfOk, length};
ghost use Rattle.paris_model.specs.declared.operators.BinaryOperator.TheVariants.{Remainder, Truncate};
ghost use Rattle.paris_alu.specs.Alu.{binary_field, overflow_plane};

use crate::blocks::computed;
use crate::numbers::{UnsignedQuotient, UnsignedRest};
use paris_alu::Overflowing;
use paris_field::FieldValue;
use std::alloc::{AllocError, Global};

/// The quotients of the low `bits` bits, cut to whole numbers, and where the divisor is 0; there the value is 0.
pub fn truncate(
    alloc: Global,
    x: &FieldValue,
    y: &FieldValue,
    bits: u64,
) -> Result<Overflowing, AllocError>
    requires positive { 0 < bits }
    requires narrow { bits ≤ 128 }
    requires x_width { bits ≤ x.now.width }
    requires y_width { bits ≤ y.now.width }
    requires same { length x.now.numbers ≡ length y.now.numbers }
    ensures value { IfOk result (λ quotient. quotient.value ≡ binary_field Truncate bits x.now y.now (λ _. 0)) }
    ensures overflow { IfOk result (λ quotient. quotient.overflow ≡ overflow_plane Truncate bits x.now y.now (λ _. 0)) }
{
    computed::<UnsignedQuotient>(alloc, x, y, bits)
}

/// The remainders of the low `bits` bits, and where the divisor is 0; there the value is 0.
pub fn remainder(
    alloc: Global,
    x: &FieldValue,
    y: &FieldValue,
    bits: u64,
) -> Result<Overflowing, AllocError>
    requires positive { 0 < bits }
    requires narrow { bits ≤ 128 }
    requires x_width { bits ≤ x.now.width }
    requires y_width { bits ≤ y.now.width }
    requires same { length x.now.numbers ≡ length y.now.numbers }
    ensures value { IfOk result (λ rest. rest.value ≡ binary_field Remainder bits x.now y.now (λ _. 0)) }
    ensures overflow { IfOk result (λ rest. rest.overflow ≡ overflow_plane Remainder bits x.now y.now (λ _. 0)) }
{
    computed::<UnsignedRest>(alloc, x, y, bits)
}
