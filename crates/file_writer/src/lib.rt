// Files of records in memory: words of two bytes, the lower byte first; a record's first word is its length. Every function is
// total: what does not fit is not written.
#![tactic(auto)]

ghost use Rattle.std.specs.Prelude.{◌≡◌, ◌+◌, ◌*◌, ◌<◌};
ghost use Rattle.file_writer.specs.Writing.{walk_end, word_bytes, written, Written, skipped, start_of};

use definitions::sizes::{CELL_BYTES, MOST_CELLS};

// How many bytes the space has: those of one cell more than there may be. A file may have fewer.
pub const SPACE_BYTES: usize = CELL_BYTES * (MOST_CELLS as usize + 1);

// A word fits at the places below this one.
const WORD_PLACES: usize = SPACE_BYTES - 1;

// The space that a file is written in.
pub type Space = [u8; SPACE_BYTES];

// Writes a word at a place, and answers the place after it. Where it does not fit, nothing changes.
pub fn put(file: &mut Space, at: usize, word: u16) -> usize
    ensures { Written file.old at (word_bytes word) file.new result }
{
    if at < WORD_PLACES {
        file[at] = (word % 256) as u8;
        file[at + 1] = (word / 256) as u8;
        at + 2
    } else {
        at
    }
}

// The place after the record at a place, by its length.
fn skip(file: &Space, at: usize) -> usize
    ensures { (result ≡ skipped file.now at) × (result < walk_end) }
{
    if at < WORD_PLACES {
        at + (usize::from(file[at]) + 256 * usize::from(file[at + 1]))
    } else {
        WORD_PLACES
    }
}

// Where record `r` starts, by walking over the lengths.
fn start(file: &Space, r: usize) -> usize
    ensures { (result ≡ start_of file.now r) × (result < walk_end) }
{
    let mut at: usize = 0;
    for _i in 0..r {
        at = skip(file, at);
    }
    at
}

// Sets word `j` of record `r`, of which word 0 is the length, word 1 the kind and the others the fields.
pub fn change(file: &mut Space, r: usize, j: u16, word: u16)
    ensures { file.new ≡ written file.old (start_of file.old r + 2 * j) (word_bytes word) }
{
    let at = start(file, r) + 2 * j as usize;
    put(file, at, word);
}
