// Cells of 68 bytes: label, number of the previous cell, eight entries of 8 bytes, and in the last two bytes of the eighth the callee.
// Cells count from 1, entries from 0.
ghost use Rattle.std.specs.Prelude.{◌≡◌, ◌+◌, ◌-◌, ◌*◌, ◌/◌, ◌%◌, ◌<◌, length, replicate};
ghost use Rattle.std.proofs.lemmas.List.Edits.{sets};
ghost use Rattle.definitions.specs.Bytes.{word_bytes};
ghost use Rattle.definitions.specs.Listing.{label_at, previous_at};
ghost use Rattle.cells.specs.LentCells.{callee_at, cell_added};

use definitions::sizes::CELL_BYTES;
use file_fields::bytes::{field_of, word};

// Where the entries and the callee stand in a cell.
pub(crate) const ENTRIES_PLACE: usize = 4;

const CALLEE_PLACE: usize = 66;

// The place of cell `c` among the cells, counted from 0; 0 for the empty context.
pub(crate) fn index(c: usize) -> usize
    ensures { result ≡ c - 1 }
{
    if c == 0 { 0 } else { c - 1 }
}

// The label of cell `c`; 0 where it is not there.
pub(crate) fn label_at(cells: &[u8], c: usize) -> u16
    ensures { result ≡ label_at cells.now c }
{
    let i = index(c);
    if i <= cells.len() / CELL_BYTES {
        word(cells, CELL_BYTES * i)
    } else {
        0
    }
}

// The number of the cell before cell `c`; 0 where cell `c` is not there.
pub(crate) fn previous_at(cells: &[u8], c: usize) -> u16
    ensures { result ≡ previous_at cells.now c }
{
    let i = index(c);
    if i <= cells.len() / CELL_BYTES {
        let at = CELL_BYTES * i;
        if 1 < cells.len() - at {
            return word(cells, at + 2);
        }
    }
    0
}

// Two fields in one number, the first below.
pub fn pair_of(first: u16, second: u16) -> u32
    ensures { (result % 65536 ≡ first) × (result / 65536 ≡ second) }
{
    first as u32 + 0x1_0000 * second as u32
}

// The label of cell `c` in the lower 16 bits, and the number of the cell before it above them. Where cell `c` is there, its
// bytes are read with one test.
pub fn cell_at(cells: &[u8], c: u16) -> u32
    ensures { (result % 65536 ≡ label_at cells.now c) × (result / 65536 ≡ previous_at cells.now c) }
{
    let end = CELL_BYTES * usize::from(c);
    if 0 < c && end <= cells.len() {
        let at = end - CELL_BYTES;
        let label = field_of(cells[at], cells[at + 1]);
        let previous = field_of(cells[at + 2], cells[at + 3]);
        return pair_of(label, previous);
    }
    pair_of(
        label_at(cells, usize::from(c)),
        previous_at(cells, usize::from(c)),
    )
}

// Writes a field of two bytes at a place inside.
pub(crate) fn set_word(b: &mut [u8], at: usize, n: u16)
    requires { at + 1 < length b.old }
    ensures { b.new ≡ sets b.old at (word_bytes n) }
{
    b[at] = (n % 256) as u8;
    b[at + 1] = (n / 256) as u8;
}

// The callee of cell `c`; 0 where it is not there.
pub fn callee_at(cells: &[u8], c: u16) -> u16
    ensures { result ≡ callee_at cells.now c }
{
    word(cells, CELL_BYTES * index(usize::from(c)) + CALLEE_PLACE)
}

// Clears the entries of the cell at a place inside.
fn clear_entries(b: &mut [u8], at: usize)
    requires { at + 66 < length b.old }
    ensures { b.new ≡ sets b.old (at + 4) (replicate 62 0) }
{
    b[at + ENTRIES_PLACE..at + CALLEE_PLACE].fill(0);
}

// Writes a new cell after those alive, where it fits. Its entries are empty.
pub fn add_cell(cells: &mut [u8], live: usize, label: u16, previous: u16, callee: u16)
    ensures { cells.new ≡ cell_added cells.old live label previous callee }
{
    if live < cells.len() / CELL_BYTES {
        let at = CELL_BYTES * live;
        set_word(cells, at, label);
        set_word(cells, at + 2, previous);
        clear_entries(cells, at);
        set_word(cells, at + CALLEE_PLACE, callee);
    }
}
