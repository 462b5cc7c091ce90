// The driver's view of an answer record (document 02, request 10): the number, or nothing.
#![tactic(auto)]

ghost use Rattle.std.specs.Prelude.{◌≡◌, ◌∷◌};
ghost use Rattle.std.proofs.lemmas.List.Edits.{sets};
ghost use Rattle.definitions.specs.Bytes.{words32, bytes_of};
ghost use Rattle.definitions.specs.DriverView.{view_bytes, is_answer_record, view_verdict};
ghost use Rattle.definitions.specs.Refusals.{as_verdict, as_written};
ghost use Rattle.driver_view.specs.Promise.{WritesView};

use definitions::refusals::{Reason, Refusal, require};
use definitions::sizes::{ANSWER_BYTES, VIEW_BYTES};
use definitions::{answer_record, numbers};
use file_fields::bytes::{word, word32};
use file_fields::writing::{put_word, put_word32};

// What the view's first two bytes say: "0 in two bytes and the number, or 1 in two bytes and four zero bytes".
const NUMBER_VIEW: u16 = 0;

const EMPTY_VIEW: u16 = 1;

// Whether lent bytes are an answer record, by their number, their length field and their kind field.
fn is_answer_record(rec: &[u8]) -> bool
    ensures { result ≡ is_answer_record rec.now }
{
    rec.len() == ANSWER_BYTES
        && word(rec, answer_record::LENGTH_PLACE) == answer_record::LENGTH
        && word(rec, answer_record::KIND_PLACE) == answer_record::KIND
}

// 3, then 8, for lent bytes and so many bytes of output.
fn check_view(rec: &[u8], room: usize) -> Result<(), Refusal>
    ensures { as_verdict result ≡ view_verdict rec.now room }
{
    let recorded = require(is_answer_record(rec), Reason::BadRecord);
    let roomy = require(VIEW_BYTES <= room, Reason::ShortOutput);
    recorded.and(roomy)
}

// Writes the two fields of a view.
#[tactic(auto, unfolding(definitions::specs::Bytes::word_bytes, definitions::specs::Bytes::words32, definitions::specs::Bytes::bytes_of))]
fn put_fields(out: &mut [u8], first: u16, value: u32)
    ensures { out.new ≡ sets out.old 0 (bytes_of (first ∷ words32 value)) }
{
    put_word(out, 0, first);
    put_word32(out, 2, value);
}

// Writes the view of a record.
fn put_view(rec: &[u8], out: &mut [u8])
    ensures { out.new ≡ sets out.old 0 (view_bytes rec.now) }
{
    let outcome = word(rec, answer_record::OUTCOME_PLACE);
    let value = word32(rec, answer_record::VALUE_PLACE);
    if outcome == numbers::NUMBER {
        put_fields(out, NUMBER_VIEW, value);
    } else {
        put_fields(out, EMPTY_VIEW, 0);
    }
}

// Writes the driver's view of an answer record: a number, or that there is none. Bytes of the output past the view stay as they
// were; a refusal leaves all of them.
pub fn write_view(rec: &[u8], out: &mut [u8]) -> Result<usize, Refusal>
    ensures { WritesView rec.now out.old (as_written result) out.new }
{
    check_view(rec, out.len())?;
    put_view(rec, out);
    Ok(VIEW_BYTES)
}
