// The six operators. A sum and a difference are worked out on the bits and wrap there; a product is looked at in 64 bits.
ghost use Rattle.std.specs.Prelude.{◌≡◌, ◌+ℤ◌, ◌-ℤ◌, ◌*ℤ◌, int_lt};
ghost use Rattle.std.specs.Int.{w32};
ghost use Rattle.definitions.specs.Operators.{reduced, in_signed_range, product, quotient, truth, equal};
ghost use Rattle.operators.specs.Results.{computed_of};

use crate::Fault;
use crate::bits::{bits_of, number_of};

pub(crate) fn add(x: i32, y: i32) -> i32
    ensures { result ≡ reduced w32 (x +ℤ y) }
{
    number_of(std::num::wrapping_add_u32(bits_of(x), bits_of(y)))
}

pub(crate) fn subtract(x: i32, y: i32) -> i32
    ensures { result ≡ reduced w32 (x -ℤ y) }
{
    number_of(std::num::wrapping_sub_u32(bits_of(x), bits_of(y)))
}

// The exact product, in 64 bits.
pub(crate) fn exact_product(x: i32, y: i32) -> i64
    ensures { result ≡ x *ℤ y }
{
    x as i64 * y as i64
}

// Whether a number is in the range of signed 32 bits.
pub(crate) fn in_signed_range(z: i64) -> bool
    ensures { result ≡ in_signed_range w32 z }
{
    if z < -0x8000_0000 {
        return false;
    }
    z < 0x8000_0000
}

// The product; one outside the range is a fault.
pub(crate) fn multiply(x: i32, y: i32) -> Result<i32, Fault>
    ensures { computed_of result ≡ product w32 x y }
{
    let exact = exact_product(x, y);
    if in_signed_range(exact) {
        return Ok(exact as i32);
    }
    Err(Fault::Overflow)
}

// Division towards zero. A zero divisor is a fault, and the lowest number by -1 gives itself.
pub(crate) fn divide(x: i32, y: i32) -> Result<i32, Fault>
    ensures { computed_of result ≡ quotient w32 x y }
{
    if y == 0 {
        return Err(Fault::ZeroDivisor);
    }
    if y == -1 {
        if x == -0x8000_0000 {
            return Ok(x);
        }
    }
    Ok(x / y)
}

// 1 where the first number is less, else 0.
pub(crate) fn less(x: i32, y: i32) -> i32
    ensures { result ≡ truth (int_lt x y) }
{
    if x < y { 1 } else { 0 }
}

// 1 where the numbers are equal, else 0.
pub(crate) fn equal(x: i32, y: i32) -> i32
    ensures { result ≡ truth (equal x y) }
{
    if x == y { 1 } else { 0 }
}
