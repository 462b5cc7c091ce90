// The operators on signed 32-bit numbers (document 01, "Operators on signed 32 bits").
#![tactic(auto)]

ghost use Rattle.std.specs.Prelude.{◌≡◌};
ghost use Rattle.definitions.specs.Operators.{computed};
ghost use Rattle.operators.specs.Results.{computed_of, fault_number};

mod arithmetic;
pub mod bits;

use definitions::{numbers, operator_codes};

// Why an operator gives no number.
#[derive(Clone, Copy, PartialEq, Eq)]
pub enum Fault {
    ZeroDivisor,
    Overflow,
}

impl Fault {
    // The number of the run fault in document 01's table.
    pub fn number(self) -> u16
        ensures { result ≡ fault_number self }
    {
        match self {
            Fault::ZeroDivisor => numbers::ZERO_DIVISOR,
            Fault::Overflow => numbers::OVERFLOW,
        }
    }
}

// The operator of a code, first the two that may fault; a code above the greatest gives 0.
pub fn compute(code: u16, x: i32, y: i32) -> Result<i32, Fault>
    ensures { computed_of result ≡ computed code x y }
{
    if code == operator_codes::MULTIPLY {
        return arithmetic::multiply(x, y);
    }
    if code == operator_codes::DIVIDE {
        return arithmetic::divide(x, y);
    }
    if code == operator_codes::ADD {
        return Ok(arithmetic::add(x, y));
    }
    if code == operator_codes::SUBTRACT {
        return Ok(arithmetic::subtract(x, y));
    }
    if code == operator_codes::LESS {
        return Ok(arithmetic::less(x, y));
    }
    if code == operator_codes::EQUAL {
        return Ok(arithmetic::equal(x, y));
    }
    Ok(0)
}
