// Refusals: document 01's "numbered refusal with its place".
ghost use Rattle.std.specs.Prelude.{◌≡◌};
ghost use Rattle.definitions.specs.Verdicts.{require};
ghost use Rattle.definitions.specs.Refusals.{number_of, as_verdict};

use crate::numbers;

// Why a call refuses: the refusals of document 01's table "What the repeater reports" and those that document 02 adds.
#[derive(Clone, Copy, PartialEq, Eq)]
pub enum Reason {
    Truncated,
    Oversize,
    BadRecord,
    BadCount,
    OutOfRange,
    BadTree,
    BadArguments,
    ShortOutput,
    BadReadings,
    BadAllowance,
    ClosedReading,
    IllTyped,
    BadRange,
}

impl Reason {
    // The table's number.
    pub fn number(self) -> u16
        ensures { result ≡ number_of self }
    {
        match self {
            Reason::Truncated => numbers::TRUNCATED,
            Reason::Oversize => numbers::OVERSIZE,
            Reason::BadRecord => numbers::BAD_RECORD,
            Reason::BadCount => numbers::BAD_COUNT,
            Reason::OutOfRange => numbers::OUT_OF_RANGE,
            Reason::BadTree => numbers::BAD_TREE,
            Reason::BadArguments => numbers::BAD_ARGUMENTS,
            Reason::ShortOutput => numbers::SHORT_OUTPUT,
            Reason::BadReadings => numbers::BAD_READINGS,
            Reason::BadAllowance => numbers::BAD_ALLOWANCE,
            Reason::ClosedReading => numbers::CLOSED_READING,
            Reason::IllTyped => numbers::ILL_TYPED,
            Reason::BadRange => numbers::BAD_RANGE,
        }
    }
}

// A refusal: the reason, and the place.
#[derive(Clone, Copy, PartialEq, Eq)]
pub struct Refusal {
    pub reason: Reason,
    pub place: usize,
}

// A refusal at place 0 where a test does not hold.
pub fn require(test: bool, reason: Reason) -> Result<(), Refusal>
    ensures { as_verdict result ≡ require test (number_of reason) 0 }
{
    if test {
        return Ok(());
    }
    Err(Refusal { reason, place: 0 })
}
