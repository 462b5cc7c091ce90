// Files written and changed as the text of the trials says, outputs, and readings.
ghost use Rattle.std.specs.Prelude.{◌≤◌};
ghost use Rattle.trials.specs.declared.files.TheConstants.{READINGS_ROOM};

use crate::printer::Printer;
use crate::shown::show_misfit;
use crate::text::{
    COMMA, WORDS, after, from_number, number, number_starts, rest, signed_at, until, word,
};
use definitions::sizes::{CELL_BYTES, MOST_READINGS, MOST_ROWS};
use file_writer::{SPACE_BYTES, Space, change, put};
use std::array;

// More readings than an entry lists: some more than one row too many can have.
const READINGS_ROOM: usize = (MOST_ROWS as usize + 1) * MOST_READINGS + 8;

// How many words a cell has.
const CELL_WORDS: usize = CELL_BYTES / 2;

// A size that fits; of one that does not the trial's line says so, and the trial goes on with the greatest.
pub(crate) fn within(size: usize, greatest: usize, printer: &mut Printer) -> usize
    ensures { result ≤ greatest }
{
    if size <= greatest {
        return size;
    }
    show_misfit(printer);
    greatest
}

// What a file and an output hold before anything is written: no two places near each other have the same byte.
pub(crate) fn filled() -> Space {
    array::from_fn(|i| (i % 251) as u8)
}

// The same past the first `size` bytes of a file.
pub(crate) fn filled_past(file: &Space, size: usize) -> Space {
    let end = size.min(SPACE_BYTES);
    let mut space = filled();
    space[..end].copy_from_slice(&file[..end]);
    space
}

// A word at a turn, from 0: it grows by its step from turn to turn, modulo 65,536.
fn at_turn(word: u16, step: u16, turn: u16) -> u16 {
    word.wrapping_add(step.wrapping_mul(turn))
}

// The word that a text starts with, at a turn.
fn word_at_turn(text: &[u8], turn: u16, printer: &mut Printer) -> u16 {
    at_turn(word(text, printer), word(after(text, b'+'), printer), turn)
}

// How many turns a part of an entry has: the number after `x`, or one. Two bytes stand before its words.
fn turns(part: &[u8], printer: &mut Printer) -> u16 {
    match rest(part, 2) {
        [b'x', count @ ..] => word(count, printer),
        _ => 1,
    }
}

// A file that is written, and how many bytes of it.
#[derive(Drop)]
pub(crate) struct File {
    pub(crate) bytes: Space,
    pub(crate) size: usize,
}

impl File {
    // A file of which nothing is written.
    pub(crate) fn new(bytes: Space) -> File {
        File { bytes, size: 0 }
    }

    // Writes a word that fits.
    fn put_word(&mut self, word: u16, printer: &mut Printer) {
        let next = put(&mut self.bytes, self.size, word);
        if next == self.size {
            show_misfit(printer);
        }
        self.size = next;
    }

    // Writes one turn of an entry's words.
    fn put_turn(&mut self, entry: &[u8], turn: u16, printer: &mut Printer) {
        for at in WORDS..until(entry, COMMA) {
            if number_starts(entry, at) {
                let word = word_at_turn(rest(entry, at), turn, printer);
                self.put_word(word, printer);
            }
        }
    }

    // Writes one turn of a cell: the entry's first number is the cell's last word, and the numbers after it, 0 where there are
    // none, are the words before. More numbers do not fit.
    fn put_cell(&mut self, entry: &[u8], turn: u16, printer: &mut Printer) {
        for k in 1..CELL_WORDS {
            let word = word_at_turn(from_number(entry, k), turn, printer);
            self.put_word(word, printer);
        }
        if !from_number(entry, CELL_WORDS).is_empty() {
            show_misfit(printer);
        }
        let last = word(from_number(entry, 0), printer);
        self.put_word(last, printer);
    }

    // Writes an entry's words, all turns of them.
    pub(crate) fn put_words(&mut self, entry: &[u8], printer: &mut Printer) {
        for turn in 0..turns(entry, printer) {
            self.put_turn(entry, turn, printer);
        }
    }

    // Writes an entry's cells, all turns of them.
    pub(crate) fn put_cells(&mut self, entry: &[u8], printer: &mut Printer) {
        for turn in 0..turns(entry, printer) {
            self.put_cell(entry, turn, printer);
        }
    }
}

// A file with the changes that an entry lists: `r.j=w` sets word `j` of record `r`, of which word 0 is the length and word 1 the
// kind. A number that no dot follows is no change.
pub(crate) fn changed(entry: &[u8], base: &Space, printer: &mut Printer) -> Space {
    let mut file = *base;
    for at in WORDS..until(entry, COMMA) {
        if number_starts(entry, at) {
            let text = rest(entry, at);
            let place = after(text, b'.');
            if !place.is_empty() {
                let record = number(text, printer) as usize;
                let value = word(after(place, b'='), printer);
                change(&mut file, record, word(place, printer), value);
            }
        }
    }
    file
}

// Readings, and how many they are.
#[derive(Drop)]
pub(crate) struct Readings {
    values: [i32; READINGS_ROOM],
    count: usize,
    ghost fits: { count ≤ READINGS_ROOM },
}

impl Readings {
    // The readings that an entry lists after a bar, all turns of them.
    pub(crate) fn of(entry: &[u8], printer: &mut Printer) -> Readings {
        let mut readings = Readings {
            values: [0; READINGS_ROOM],
            count: 0,
        };
        for turn in 0..turns(rest(entry, until(entry, b'|')), printer) {
            readings.push_row(entry, turn, printer);
        }
        if readings.count == READINGS_ROOM {
            show_misfit(printer);
        }
        readings
    }

    // Adds one turn of the readings that an entry lists. One past the room has no place, and its digits are not read.
    fn push_row(&mut self, entry: &[u8], turn: u16, printer: &mut Printer) {
        for at in until(entry, b'|')..until(entry, COMMA) {
            if number_starts(entry, at) && self.count < READINGS_ROOM {
                let step = word(after(rest(entry, at), b'+'), printer);
                let grown = i32::from(at_turn(0, step, turn));
                self.values[self.count] = signed_at(entry, at, printer).wrapping_add(grown);
                self.count += 1;
            }
        }
    }

    // Sets the reading at a position that has one.
    pub(crate) fn set(&mut self, position: u32, value: i32) {
        let at = position as usize;
        if at < READINGS_ROOM {
            self.values[at] = value;
        }
    }

    pub(crate) fn listed(&self) -> &[i32] {
        &self.values[..self.count]
    }
}
