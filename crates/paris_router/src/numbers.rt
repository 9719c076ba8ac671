//! The low bits of numbers.

ghost use Rattle.std.specs.Prelude.{◌≡◌, ◌<◌, ◌≤◌, ◌-◌, ◌^◌, All, IfOk, length, map};
ghost use Rattle.paris_model.specs.Store.{everywhere, low};
ghost use Rattle.paris_field.specs.Fields.{operand};

use paris_field::FieldValue;
use std::alloc::AllocError;

/// A number whose low `bits` bits, up to 128, are 1.
pub fn low_mask(bits: u64) -> u128
    requires { bits ≤ 128 }
    ensures { result ≡ 2 ^ bits - 1 }
{
    if bits < 128 {
        (1u128 << bits) - 1
    } else {
        u128::MAX
    }
}

/// Keeps the low `bits` bits of each number.
fn keep_low(numbers: &mut [u128], bits: u64)
    requires { bits ≤ 128 }
    ensures { numbers.new ≡ map (low bits) numbers.old }
{
    let mask = low_mask(bits);
    for number in numbers.iter_mut() {
        *number &= mask;
    }
}

/// The low `bits` bits of each processor's number.
pub fn low_numbers(x: &FieldValue, bits: u64) -> Result<Vec<u128>, AllocError>
    requires { bits ≤ 128 }
    ensures value { IfOk result (λ numbers. numbers.items ≡ everywhere (length x.now.numbers) (operand bits x.now)) }
    ensures fit { IfOk result (λ numbers. All (λ number. number < 2 ^ bits) numbers.items) }
{
    let mut numbers = x.numbers()?;
    keep_low(&mut numbers, bits);
    Ok(numbers)
}
