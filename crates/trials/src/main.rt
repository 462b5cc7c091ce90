// The readers, the translator, the length that is asked, the canonical form, the run, the run on rows, the hirer's run, the search for
// a reading's value, the driver's view and the context listing on the files that standard input lists.
//
// The file `stdin` beside src/ has the trials: files for the two readers; sheets and the translations that they should have, and
// their runs; sheets and their canonical forms; translations that no translator writes, and their runs, also on rows, for a hirer
// and in searches; answer records and their views; cells and their listings. The file `stdout` has what each should answer by
// document 01, and by document 02 for rows (request 1), products (2), the length that is asked (3), labels (4), hirers (5), what
// cells remember (7), cells given back (9), the driver's view (10), types (11), searches (12) and canonical forms (13). Files and
// translations are worked out by hand from these and document 002, and so are the readers' answers; those for types, the runs with
// their steps and cells, and of the trials for labels the translations too, were worked out by models written from the documents
// alone. A record is its length, its kind and its fields; in a change, word 0 of a record is its length, word 1 its kind, and the
// fields follow. A comment in quotation marks is the sentence that decides the trials below it; above a sheet's records comments
// say what the sheet is, where the number before a node's record is the node's.
// A line of `stdin` does what its first byte says, and goes on over the lines after it that begin with a blank:
//   =  a new trial, or trials of one file, and its name; no word is written yet
//   -  a heading
//   s  words of the sheet's file, two bytes each
//   t  words of the translation's file, or of the answer record that is viewed, or of the sheet's canonical form
//   S  the sheet's file is read: how many bytes of it, and the words that are changed for this trial, as `r.j=w`
//   T  the same with the translation's file
//   c  a cell that runs should make, or that is listed: its callee, its label, the cell before, and the words of its entries, as
//      far as they are written; the others are 0
//   k  the same, as the first cell: those before are no more
//   r  the sheet is translated: how many bytes of it, and into how many bytes of output; the translation's file is expected, and
//      asking for the length is to answer the same
//   m  the length of the translation is asked: how many bytes of the sheet, and the stated length; with a minus before it, as many
//      below the greatest number of 64 bits
//   o  the sheet is written in canonical form: how many bytes of it, and into how many bytes of output, and changes as above; the
//      form that `t` has is expected, and its own form is to be itself
//   j  the sheet is translated and run, in one call and in two: steps, nesting, cells, bytes lent for cells, bytes of the sheet,
//      bytes of output, changes as above, and after a bar the readings
//   u  the translation is run: steps, nesting, cells, bytes lent for cells, bytes of the translation, changes, and the readings
//   w  the translation is run on rows, in one call and in single runs: rows, steps, nesting, cells, bytes lent for cells, bytes
//      of the translation, bytes lent for records, changes, and the readings of all rows
//   h  the translation is run for a hirer, and by the owner's run: the set, whose bit i is reading i, as a number, and then as `u`
//   f  a reading's value is searched, and by single runs in turn: the position, the lowest and the highest value, the wanted number,
//      each with a minus before it where it is negative, and then as `u`
//   l  a context is listed: the cell, bytes of cells, bytes of output
//   v  an answer record is viewed: bytes of it, bytes of output, changes
// A run shows its answer's record of kind 64. As many cells as it counts are to be those of `c`, and all bytes past them, and those
// of the output past the translation, are to be as they were before; where the run is refused, all bytes of both are. Of rows each
// shows its record. `c` then has the cells as the last row leaves them: as many as any row counts are to be those, and all bytes past
// them, and those past the last record, are to be as they were before; where the rows are refused, all bytes of both are. Of a search
// `c` has the cells as its last run leaves them, in the same way.
// Words, cells and readings after `xN` are written N times, and one with `+k` after it grows by k from turn to turn. A reading has a
// minus before it where it is negative. What follows a comma says what a trial is. Any other line is a comment. `stdin` has less than
// 131,072 bytes. What does not fit its space, a number too large or a file too long, is shown as `DOES NOT FIT`, which `stdout` never
// has.
// The interpreter with which `rt try` begins ends at its limit of steps, and the compiled runs go through.
#![tactic(auto)]

mod canonical_trial;
mod files;
mod hirer_trial;
mod length_trial;
mod listing_trial;
mod printer;
mod reader_trial;
mod rows_trial;
mod run_trial;
mod search_trial;
mod shown;
mod text;
mod translator_trial;
mod view_trial;

use crate::canonical_trial::try_canonical;
use crate::files::{File, filled};
use crate::hirer_trial::try_for_hirer;
use crate::length_trial::try_length;
use crate::listing_trial::try_listing;
use crate::printer::Printer;
use crate::reader_trial::try_reader;
use crate::rows_trial::try_rows;
use crate::run_trial::{try_joined, try_run};
use crate::search_trial::try_search;
use crate::shown::{show_entry, show_misfit};
use crate::text::{line_starts, rest};
use crate::translator_trial::try_translator;
use crate::view_trial::try_view;
use definitions::Layout;
use file_writer::{SPACE_BYTES, Space};
use standard_input::read_full;
use std::io;

// More bytes than the text of the trials has.
const TEXT_BYTES: usize = 131072;

// The sheet, the translation and the cells that entries write.
#[derive(Drop)]
struct Written {
    sheet: File,
    translation: File,
    cells: File,
}

impl Written {
    // Nothing, over the same bytes in each.
    fn new(bytes: Space) -> Written {
        Written {
            sheet: File::new(bytes),
            translation: File::new(bytes),
            cells: File::new(bytes),
        }
    }

    // Carries out an entry that writes files.
    fn write(&mut self, letter: u8, entry: &[u8], printer: &mut Printer) {
        match letter {
            b'=' => *self = Written::new(filled()),
            b's' => self.sheet.put_words(entry, printer),
            b't' => self.translation.put_words(entry, printer),
            b'c' => self.cells.put_cells(entry, printer),
            b'k' => {
                self.cells.size = 0;
                self.cells.put_cells(entry, printer);
            }
            _ => {}
        }
    }

    // Carries out an entry that shows what is tried, or tries it: each kind of trial is an arm here and a file of its own.
    fn try_entry(&self, letter: u8, entry: &[u8], printer: &mut Printer) {
        let sheet = &self.sheet.bytes;
        let translation = &self.translation.bytes;
        let cells = &self.cells;
        match letter {
            b'=' => show_entry("", entry, "\n", printer),
            b'-' => show_entry("- ", entry, "\n", printer),
            b'S' => try_reader(entry, Layout::Sheet, sheet, printer),
            b'T' => try_reader(entry, Layout::Translation, translation, printer),
            b'r' => try_translator(entry, sheet, &self.translation, printer),
            b'm' => try_length(entry, sheet, printer),
            b'o' => try_canonical(entry, sheet, &self.translation, printer),
            b'j' => try_joined(entry, sheet, cells, printer),
            b'u' => try_run(entry, translation, cells, printer),
            b'w' => try_rows(entry, translation, cells, printer),
            b'h' => try_for_hirer(entry, translation, cells, printer),
            b'f' => try_search(entry, translation, cells, printer),
            b'l' => try_listing(entry, &cells.bytes, printer),
            b'v' => try_view(entry, translation, printer),
            _ => {}
        }
    }
}

fn main(rt: HostRuntime) -> io::Result<()> {
    let mut text = [0u8; TEXT_BYTES];
    let size = read_full(&mut rt.stdin(), &mut text)?;
    let mut printer = Printer::new(rt.stdout());
    if size == text.len() {
        show_misfit(&mut printer);
    }
    let text = &text;
    let mut written = Written::new([0; SPACE_BYTES]);
    for at in 0..size {
        if line_starts(text, at) {
            let entry = rest(text, at);
            if let [letter, _, _, ..] = entry {
                written.write(*letter, entry, &mut printer);
                written.try_entry(*letter, entry, &mut printer);
            }
        }
    }
    printer.end()
}
