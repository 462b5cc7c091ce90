// The answer of a run, and its record of kind 64.
#![tactic(auto)]

ghost use Rattle.std.specs.Prelude.{◌≡◌};
ghost use Rattle.std.specs.Int.{w32};
ghost use Rattle.definitions.specs.Operators.{residue};
ghost use Rattle.definitions.specs.Refusals.{number_of, as_verdict};
ghost use Rattle.definitions.specs.Run.{refusal};
ghost use Rattle.answer.specs.Answers.{outcome_of, value_of, node_of, context_of, answer_of, Writes};

use definitions::refusals::{Reason, Refusal, require};
use definitions::sizes::ANSWER_BYTES;
use definitions::{answer_record, numbers};
use file_fields::writing::{put_word, put_word32};
use operators::bits::bits_of;

// How a run ends: a number, a constructor with node and context, a stop or a fault, or a refusal.
#[derive(Clone, Copy)]
pub enum Outcome {
    Number(i32),
    Constructor { tag: u16, node: u16, context: u16 },
    Ended(u16),
    Refused { number: u16, place: usize },
}

// The outcome, with the steps taken and the most cells alive together.
#[derive(Clone, Copy)]
pub struct Answer {
    pub outcome: Outcome,
    pub steps: u32,
    pub cells: u16,
}

// The answer of a refusal.
pub fn refused(number: u16, place: usize) -> Answer
    ensures { answer_of result ≡ refusal number place }
{
    Answer {
        outcome: Outcome::Refused { number, place },
        steps: 0,
        cells: 0,
    }
}

// The answer of a run that was refused.
impl From<Refusal> for Answer {
    ghost from_gives = { λ r a. answer_of a ≡ refusal (number_of r.reason) r.place };

    fn from(r: Refusal) -> Answer {
        refused(r.reason.number(), r.place)
    }
}

// The outcome's number.
#[tactic(auto, unfolding(crate::specs::Answers::outcome_of))]
fn outcome_of(o: Outcome) -> u16
    ensures { result ≡ outcome_of o }
{
    match o {
        Outcome::Number(_) => numbers::NUMBER,
        Outcome::Constructor { .. } => numbers::CONSTRUCTOR,
        Outcome::Ended(number) | Outcome::Refused { number, .. } => number,
    }
}

// The bits of the outcome's value.
#[tactic(auto, unfolding(crate::specs::Answers::value_of, definitions::specs::Operators::residue))]
fn value_bits(o: Outcome) -> u32
    ensures { result ≡ residue w32 (value_of o) }
{
    match o {
        Outcome::Number(value) => bits_of(value),
        Outcome::Constructor { tag, .. } => u32::from(tag),
        Outcome::Ended(_) => 0,
        Outcome::Refused { place, .. } => (place % 0x1_0000_0000) as u32,
    }
}

// The node of a constructor, else 0.
#[tactic(auto, unfolding(crate::specs::Answers::node_of))]
fn node_of(o: Outcome) -> u16
    ensures { result ≡ node_of o }
{
    match o {
        Outcome::Constructor { node, .. } => node,
        _ => 0,
    }
}

// The context of a constructor, else 0.
#[tactic(auto, unfolding(crate::specs::Answers::context_of))]
fn context_of(o: Outcome) -> u16
    ensures { result ≡ context_of o }
{
    match o {
        Outcome::Constructor { context, .. } => context,
        _ => 0,
    }
}

// Writes the answer's record.
pub fn write_answer(a: Answer, out: &mut [u8]) -> Result<(), Refusal>
    ensures { Writes a out.old out.new (as_verdict result) }
{
    require(ANSWER_BYTES <= out.len(), Reason::ShortOutput)?;
    let o = a.outcome;
    put_word(out, answer_record::LENGTH_PLACE, answer_record::LENGTH);
    put_word(out, answer_record::KIND_PLACE, answer_record::KIND);
    put_word(out, answer_record::OUTCOME_PLACE, outcome_of(o));
    put_word32(out, answer_record::VALUE_PLACE, value_bits(o));
    put_word32(out, answer_record::STEPS_PLACE, a.steps);
    put_word(out, answer_record::NODE_PLACE, node_of(o));
    put_word(out, answer_record::CONTEXT_PLACE, context_of(o));
    put_word(out, answer_record::CELLS_PLACE, a.cells);
    Ok(())
}
