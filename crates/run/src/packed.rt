// An outcome in one number of 64 bits, which a visit returns: in its lowest 16 bits 1 for a number, 2 for a constructor and 0 for a
// stop or a run fault, and above them the number's bits, the constructor's node and context, or the number of the stop or fault.
// So a value has the number of the entry that remembers it.
ghost use Rattle.std.specs.Prelude.{◌≡◌, Ok};
ghost use Rattle.run.specs.Packed.{outcome_in, is_value_in};

use crate::node_table::{entry_with, first_in, kind_in, number_in, second_in};
use crate::state::{End, Outcome, State, Value};
use cells::entry;
use operators::bits::bits_of;

const ENDED: u16 = entry::EMPTY;

// The number of a value.
fn packed_value(v: Value) -> u64
    ensures { outcome_in result ≡ Ok v }
{
    match v {
        Value::Number(z) => {
            let bits = bits_of(z);
            entry_with(
                entry::NUMBER,
                (bits % 0x1_0000) as u16,
                (bits / 0x1_0000) as u16,
                0,
            )
        }
        Value::Constructor { node, context } => entry_with(entry::CONSTRUCTOR, node, context, 0),
    }
}

// The number of an outcome.
pub(crate) fn packed(o: Outcome) -> u64
    ensures { outcome_in result ≡ o }
{
    match o {
        Ok(v) => packed_value(v),
        Err(end) => entry_with(ENDED, end.number, 0, 0),
    }
}

// Whether the outcome of a number is a value.
#[tactic(auto, unfolding(crate::specs::Packed::is_value_in))]
pub(crate) fn is_value(x: u64) -> bool
    ensures { result ≡ is_value_in x }
{
    let kind = kind_in(x);
    kind == entry::NUMBER || kind == entry::CONSTRUCTOR
}

// The outcome of a number.
fn outcome_in(x: u64) -> Outcome
    ensures { result ≡ outcome_in x }
{
    match kind_in(x) {
        entry::NUMBER => Ok(Value::Number(number_in(x))),
        entry::CONSTRUCTOR => Ok(Value::Constructor {
            node: first_in(x),
            context: second_in(x),
        }),
        _ => Err(End {
            number: first_in(x),
        }),
    }
}

// The state after a visit: the outcome that it returned, the steps left and the most cells alive together.
pub(crate) fn opened(x: u64, left: u32, most: u32) -> State
    ensures { (result.outcome ≡ outcome_in x) × (result.left ≡ left) × (result.most ≡ most) }
{
    State {
        outcome: outcome_in(x),
        left,
        most,
    }
}
