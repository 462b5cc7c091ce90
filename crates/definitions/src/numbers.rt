// The numbers of document 01's table "What the repeater reports" and those that document 02 adds, with the paper's word for each, and
// the outcomes that are values. `specs/Numbers.antt` has the same numbers and their classes.
ghost use Rattle.std.specs.Prelude.{◌≡◌};
ghost use Rattle.definitions.specs.Numbers.{is_refusal};

// "cut"
pub const TRUNCATED: u16 = 1;

// "oversize"
pub const OVERSIZE: u16 = 2;

// "bad record"
pub const BAD_RECORD: u16 = 3;

// "bad count"
pub const BAD_COUNT: u16 = 4;

// "dangling"
pub const OUT_OF_RANGE: u16 = 5;

// "misgrown"
pub const BAD_TREE: u16 = 6;

// "misfit"
pub const BAD_ARGUMENTS: u16 = 7;

// "short tray"
pub const SHORT_OUTPUT: u16 = 8;

// "sensor count"
pub const BAD_READINGS: u16 = 9;

// "bad allowance"
pub const BAD_ALLOWANCE: u16 = 10;

// stop "steps"
pub const NO_STEP: u16 = 11;

// stop "nesting"
pub const NO_NESTING: u16 = 12;

// stop "cells"
pub const NO_CELL: u16 = 13;

// "number wanted"
pub const NUMBER_WANTED: u16 = 14;

// "constructor wanted"
pub const CONSTRUCTOR_WANTED: u16 = 15;

// "no clause"
pub const NO_CLAUSE: u16 = 16;

// "zero divisor"
pub const ZERO_DIVISOR: u16 = 17;

// "no actual"
pub const NO_ACTUAL: u16 = 18;

// "no field"
pub const NO_FIELD: u16 = 19;

// "overflow"
pub const OVERFLOW: u16 = 20;

// "closed"
pub const CLOSED_READING: u16 = 21;

// "ill typed"
pub const ILL_TYPED: u16 = 22;

// "bad range"
pub const BAD_RANGE: u16 = 23;

// "none"
pub const NO_VALUE: u16 = 24;

// The outcome of a number, and of a constructor.
pub const NUMBER: u16 = 0;

pub const CONSTRUCTOR: u16 = 100;

// Whether a number of the table is a refusal's.
pub fn is_refusal(n: u16) -> bool
    ensures { result ≡ is_refusal n }
{
    if n < TRUNCATED {
        return false;
    }
    if n <= BAD_ALLOWANCE {
        return true;
    }
    if n < CLOSED_READING {
        return false;
    }
    n <= BAD_RANGE
}
