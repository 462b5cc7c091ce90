// The entries of cells: what a cell remembers at each position, 8 bytes each.
ghost use Rattle.std.specs.Prelude.{◌≡◌, [], ◌∷◌, ◌/◌, ◌%◌};
ghost use Rattle.cells.specs.LentCells.{entry_place, entry_number, entry_written};

use crate::cell::{ENTRIES_PLACE, index, set_word};
use definitions::sizes::{CELL_BYTES, ENTRY_BYTES};
use file_fields::bytes::field_of;

// The kinds of entries.
pub const EMPTY: u16 = 0;

pub const NUMBER: u16 = 1;

pub const CONSTRUCTOR: u16 = 2;

// Where entry `i` of cell `c` starts.
fn entry_place(c: u16, i: u16) -> usize
    ensures { result ≡ entry_place c i }
{
    CELL_BYTES * index(usize::from(c)) + ENTRIES_PLACE + ENTRY_BYTES * usize::from(i)
}

// Entry `i` of cell `c` in one number: its kind in the lowest 16 bits, and above it the number's bits, or the node and the context;
// 0 where it is not there.
pub fn entry_at(cells: &[u8], c: u16, i: u16) -> u64
    ensures { result ≡ entry_number cells.now c i }
{
    let at = entry_place(c, i);
    if at + ENTRY_BYTES <= cells.len() {
        let kind = field_of(cells[at], cells[at + 1]);
        let first = field_of(cells[at + 2], cells[at + 3]);
        let second = field_of(cells[at + 4], cells[at + 5]);
        return kind as u64 + 0x1_0000 * first as u64 + 0x1_0000_0000 * second as u64;
    }
    0
}

// Writes the lower 48 bits of such a number into entry `i` of cell `c`, where it is there. The last two bytes of the entry stay.
pub fn write_entry(cells: &mut [u8], c: u16, i: u16, x: u64)
    ensures { cells.new ≡ entry_written cells.old c i ((x % 65536) ∷ (x / 65536 % 65536) ∷ (x / 4294967296 % 65536) ∷ []) }
{
    let at = entry_place(c, i);
    if at + ENTRY_BYTES <= cells.len() {
        set_word(cells, at, (x % 0x1_0000) as u16);
        set_word(cells, at + 2, (x / 0x1_0000 % 0x1_0000) as u16);
        set_word(cells, at + 4, (x / 0x1_0000_0000 % 0x1_0000) as u16);
    }
}
