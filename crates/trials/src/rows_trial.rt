// A trial of a run on rows: a line says what was answered, a line for each row has the fields of its record, and the last one
// says whether the lent bytes are what they should be.
ghost use Rattle.std.specs.Prelude.{◌≤◌};

use crate::files::{File, Readings, changed, filled, within};
use crate::printer::Printer;
use crate::run_trial::{Given, cells_right, ran};
use crate::shown::{show_entry, show_record, show_refusal, show_whether};
use crate::text::numbered;
use crate::translator_trial::rest_kept;
use answer::{Answer, write_answer};
use batch::run_rows;
use definitions::answer_record::CELLS_PLACE;
use definitions::refusals::Refusal;
use definitions::sizes::ANSWER_BYTES;
use file_fields::bytes::word;
use file_writer::{SPACE_BYTES, Space};

// The records and the cells that were lent.
#[derive(Clone, Copy, PartialEq)]
struct Lent {
    records: Space,
    cells: Space,
}

// Runs rows in one call, with new records and cells, and answers also what was lent.
fn ran_rows(
    file: &Space,
    rows: u32,
    readings: &[i32],
    g: Given,
    printer: &mut Printer,
) -> (Result<usize, Refusal>, Lent) {
    let size = within(g.size, SPACE_BYTES, printer);
    let lent_bytes = within(g.lent, SPACE_BYTES, printer);
    let room = within(g.room, SPACE_BYTES, printer);
    let mut cells = filled();
    let mut records = filled();
    let mut lent: &mut [u8] = &mut cells[..lent_bytes];
    let answer = run_rows(
        &file[..size],
        rows,
        readings,
        g.allowances,
        &mut lent,
        &mut records[..room],
    );
    (answer, Lent { records, cells })
}

// Where a row's record starts.
fn record_place(row: u32, printer: &mut Printer) -> usize
    ensures { result ≤ SPACE_BYTES }
{
    within(ANSWER_BYTES * row as usize, SPACE_BYTES, printer)
}

// Writes the record of a row's answer.
fn put_record(answer: Answer, row: u32, records: &mut Space, printer: &mut Printer) {
    let at = record_place(row, printer);
    let _ = write_answer(answer, &mut records[at..]);
}

// Runs rows by single runs, in turn in the same new cells, each on its own readings, and writes their records.
fn ran_in_turn(file: &Space, rows: u32, readings: &[i32], g: Given, printer: &mut Printer) -> Lent {
    let mut records = filled();
    let mut cells = filled();
    let mut rest = readings;
    for row in 0..rows {
        let width = readings.len() / rows as usize;
        let (own, after) = rest.split_at(width.min(rest.len()));
        let ran = ran(file, own, g, cells, printer);
        put_record(ran.answer, row, &mut records, printer);
        cells = ran.cells;
        rest = after;
    }
    Lent { records, cells }
}

// Shows what was answered, and answers how many rows were run.
fn show_ran(answer: Result<usize, Refusal>, rows: u32, printer: &mut Printer) -> u32 {
    match answer {
        Ok(n) => {
            printer.print(format_args!("length {n}"));
            rows
        }
        Err(refusal) => {
            show_refusal(refusal, printer);
            0
        }
    }
}

// Shows the records of rows, and answers how many cells the one counts that counts most.
fn show_rows(records: &Space, rows: u32, printer: &mut Printer) -> u16 {
    let mut most: u16 = 0;
    for row in 0..rows {
        let at = record_place(row, printer);
        let record = &records[at..];
        printer.write(b"\n    ");
        show_record(record, printer);
        most = most.max(word(record, CELLS_PLACE));
    }
    most
}

// A trial. The entry has the rows, the allowances, the bytes lent for cells, the translation's bytes, the bytes lent for records,
// the changes, and the readings.
pub(crate) fn try_rows(entry: &[u8], base: &Space, expected: &File, printer: &mut Printer) {
    let translation = changed(entry, base, printer);
    let readings = Readings::of(entry, printer);
    let rows = numbered(entry, 0, printer);
    let g = Given::of(entry, 1, printer);
    let (answer, lent) = ran_rows(&translation, rows, readings.listed(), g, printer);
    show_entry("  ", entry, ": ", printer);
    let done = show_ran(answer, rows, printer);
    let most = show_rows(&lent.records, done, printer);
    show_whether(
        cells_right(most, &lent.cells, expected),
        ", cells right",
        ", CELLS WRONG",
        printer,
    );
    show_whether(
        rest_kept(&lent.records, ANSWER_BYTES * done as usize),
        ", the rest as it was",
        ", THE REST CHANGED",
        printer,
    );
    let alone = ran_in_turn(&translation, done, readings.listed(), g, printer);
    show_whether(
        lent == alone,
        ", the same by single runs\n",
        ", NOT THE SAME BY SINGLE RUNS\n",
        printer,
    );
}
