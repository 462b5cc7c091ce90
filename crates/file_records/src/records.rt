// Records: where they stand, and a record as a part of the caller's file.
ghost use Rattle.std.specs.Prelude.{◌≡◌, ◌+◌, ◌≤◌, ◌<◌};
ghost use Rattle.file_records.specs.Index.{start_in};
ghost use Rattle.definitions.specs.Records.{whole, next, start_of, record_at, record_of, kind_of, field, field_count};

use definitions::sizes::{MOST_RECORDS, Starts};
use file_fields::bytes::{word, word_inside};

// Whether a whole record stands at a place.
#[tactic(auto, unfolding(definitions::specs::Records::whole))]
fn is_whole(b: &[u8], at: usize) -> bool
    ensures { result ≡ whole b.now at }
{
    let n = usize::from(word(b, at));
    4 <= n && at <= b.len() && n <= b.len() - at
}

// The place after the record at a place; the same place where no whole record stands.
fn next(b: &[u8], at: usize) -> usize
    ensures { result ≡ next b.now at }
{
    if is_whole(b, at) {
        at + usize::from(word(b, at))
    } else {
        at
    }
}

// Where record `r` starts, by walking.
fn start(b: &[u8], r: usize) -> usize
    ensures { result ≡ start_of b.now r }
{
    let mut at: usize = 0;
    for _i in 0..r {
        at = next(b, at);
    }
    at
}

// The record at a place: that part of the file, empty where no whole record stands there.
pub fn record_at(b: &[u8], at: usize) -> &[u8]
    ensures { result.now ≡ record_at b.now at }
{
    if is_whole(b, at) {
        let end = at + usize::from(word(b, at));
        &b[at..end]
    } else {
        &b[..0]
    }
}

// Record `r`: that part of the file, empty where there is none.
pub fn record(b: &[u8], r: usize) -> &[u8]
    ensures { result.now ≡ record_of b.now r }
{
    record_at(b, start(b, r))
}

// Where record `r` starts by an index; 0 past the index.
pub fn start_in(starts: &Starts, r: usize) -> usize
    ensures { (result ≡ start_in starts.now r) × (result ≤ 65535) }
{
    if r < MOST_RECORDS {
        usize::from(starts[r])
    } else {
        0
    }
}

// Record `r` by an index, in constant time: the record at the place that the index names.
pub fn indexed<'a>(b: &'a [u8], starts: &Starts, r: usize) -> &'a [u8]
    ensures { result.now ≡ record_at b.now (start_in starts.now r) }
{
    record_at(b, start_in(starts, r))
}

// Record `first + i` by an index, also where no number of the machine's width is that sum: past the index it shows the record
// at place 0.
pub(crate) fn indexed_from<'a>(b: &'a [u8], starts: &Starts, first: usize, i: usize) -> &'a [u8]
    ensures { result.now ≡ record_at b.now (start_in starts.now (first + i)) }
{
    if first < MOST_RECORDS && i < MOST_RECORDS {
        indexed(b, starts, first + i)
    } else {
        record_at(b, 0)
    }
}

// A record's kind.
pub fn kind(rec: &[u8]) -> u16
    ensures { result ≡ kind_of rec.now }
{
    word(rec, 2)
}

// Field `j` of a record.
pub fn field(rec: &[u8], j: usize) -> u16
    ensures { result ≡ field rec.now j }
{
    if j < rec.len() / 2 {
        word(rec, 4 + 2 * j)
    } else {
        0
    }
}

// Field `j` of a record that has it.
pub fn field_inside(rec: &[u8], j: usize) -> u16
    requires { j < field_count rec.now }
    ensures { result ≡ field rec.now j }
{
    word_inside(rec, 4 + 2 * j)
}

// How many fields a record has.
#[tactic(auto, unfolding(definitions::specs::Records::field_count))]
pub fn field_count(rec: &[u8]) -> usize
    ensures { result ≡ field_count rec.now }
{
    rec.len().saturating_sub(4) / 2
}
