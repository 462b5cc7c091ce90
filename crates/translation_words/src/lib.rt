// Words written into the output, two bytes each, and records of them. Places count bytes. A byte past the output's end is
// dropped, and no place is counted past the greatest length of a translation.
#![tactic(auto)]

ghost use Rattle.std.specs.Prelude.{[], ◌∷◌, ◌+◌, ◌*◌, ◌≤◌};
ghost use Rattle.definitions.specs.Records.{kind_of, field_count};
ghost use Rattle.definitions.specs.Translate.{record_words};
ghost use Rattle.translation_words.specs.Writing.{WroteWords, field_words};

use definitions::sizes::TRANSLATION_BYTES;
use file_fields::writing::put_byte;
use file_records::records::{field, field_count, kind};

// A kind of node of a translation is as far above the sheet's.
const KIND_STEP: usize = 32;

// Writes a word, the lower byte first; what is above 16 bits is dropped. The answer is the place after it.
pub fn put(out: &mut [u8], at: usize, w: usize) -> usize
    ensures { WroteWords out.old at (w ∷ []) result out.new }
{
    if TRANSLATION_BYTES <= at {
        return at;
    }
    put_byte(out, at, (w % 256) as u8);
    put_byte(out, at + 1, (w / 256 % 256) as u8);
    at + 2
}

// Writes the length and the kind of a record of `count` fields.
pub fn put_start(out: &mut [u8], at: usize, kind: usize, count: usize) -> usize
    requires { count ≤ 65535 }
    ensures { WroteWords out.old at ((4 + 2 * count) ∷ kind ∷ []) result out.new }
{
    let fields = put(out, at, 4 + 2 * count);
    put(out, fields, kind)
}

// Writes a record of one field.
pub fn put_one(out: &mut [u8], at: usize, kind: usize, x: usize) -> usize
    ensures { WroteWords out.old at (record_words kind (x ∷ [])) result out.new }
{
    let first = put_start(out, at, kind, 1);
    put(out, first, x)
}

// Writes a record of two fields.
pub fn put_two(out: &mut [u8], at: usize, kind: usize, x: usize, y: usize) -> usize
    ensures { WroteWords out.old at (record_words kind (x ∷ y ∷ [])) result out.new }
{
    let first = put_start(out, at, kind, 2);
    let second = put(out, first, x);
    put(out, second, y)
}

// Writes the fields of a record.
fn put_fields(out: &mut [u8], at: usize, rec: &[u8]) -> usize
    ensures { WroteWords out.old at (field_words rec.now) result out.new }
{
    let count = field_count(rec);
    let mut next = at;
    for j in 0..count {
        next = put(out, next, usize::from(field(rec, j)));
    }
    next
}

// Writes a record with the same fields: its kind is 32 above.
pub fn put_copy(out: &mut [u8], at: usize, rec: &[u8]) -> usize
    requires { field_count rec.now ≤ 65535 }
    ensures { WroteWords out.old at (record_words (32 + kind_of rec.now) (field_words rec.now)) result out.new }
{
    let fields = put_start(
        out,
        at,
        KIND_STEP + usize::from(kind(rec)),
        field_count(rec),
    );
    put_fields(out, fields, rec)
}
