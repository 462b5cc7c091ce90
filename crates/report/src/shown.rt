// What a line shows of an outcome.
ghost use Rattle.std.specs.Prelude.{pos};
ghost use Rattle.report.specs.Writing.{IsSigned, ShownOf};

use answer::Outcome;
use definitions::numbers::{CONSTRUCTOR, NUMBER};

// A number by its sign and its size, which is how far it is from zero.
#[derive(Clone, Copy)]
pub(crate) struct Signed {
    pub negative: bool,
    pub size: usize,
}

impl From<i32> for Signed {
    ghost from_gives = { IsSigned };

    fn from(x: i32) -> Signed {
        Signed {
            negative: x < 0,
            size: x.unsigned_abs() as usize,
        }
    }
}

impl From<usize> for Signed {
    ghost from_gives = { λ n s. IsSigned (pos n) s };

    fn from(size: usize) -> Signed {
        Signed {
            negative: false,
            size,
        }
    }
}

// The outcome's number, and its value.
#[derive(Clone, Copy)]
pub(crate) struct Shown {
    pub number: u16,
    pub value: Signed,
}

// Number and value of an outcome.
pub(crate) fn show(o: Outcome) -> Shown
    ensures { ShownOf o result }
{
    match o {
        Outcome::Number(value) => Shown {
            number: NUMBER,
            value: Signed::from(value),
        },
        Outcome::Constructor { tag, .. } => Shown {
            number: CONSTRUCTOR,
            value: Signed::from(usize::from(tag)),
        },
        Outcome::Ended(number) => Shown {
            number,
            value: Signed::from(0usize),
        },
        Outcome::Refused { number, place } => Shown {
            number,
            value: Signed::from(place),
        },
    }
}
