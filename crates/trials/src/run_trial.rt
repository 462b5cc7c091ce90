// A trial of a run: a line says what was answered, by the fields of the answer's record, and whether the lent bytes are what
// they should be.
ghost use Rattle.std.specs.Prelude.{◌≤◌};

use crate::files::{File, Readings, changed, filled, filled_past, within};
use crate::printer::Printer;
use crate::shown::{show_entry, show_record, show_whether};
use crate::text::numbered;
use crate::translator_trial::translated;
use allowances::Allowances;
use answer::{Answer, Outcome, write_answer};
use definitions::sizes::{ANSWER_BYTES, CELL_BYTES};
use file_writer::{SPACE_BYTES, Space};
use join::translate_and_run;
use run::run;

// What a run is given beside its file and its readings: the allowances, and how many bytes are lent for cells and how many the file
// and the output have.
#[derive(Clone, Copy)]
pub(crate) struct Given {
    pub(crate) allowances: Allowances,
    pub(crate) lent: usize,
    pub(crate) size: usize,
    pub(crate) room: usize,
}

impl Given {
    // The numbers of an entry from its number `first` on.
    pub(crate) fn of(entry: &[u8], first: usize, printer: &mut Printer) -> Given
        requires { first ≤ 4 }
    {
        Given {
            allowances: Allowances {
                steps: numbered(entry, first, printer),
                nesting: numbered(entry, first + 1, printer),
                cells: numbered(entry, first + 2, printer),
            },
            lent: numbered(entry, first + 3, printer) as usize,
            size: numbered(entry, first + 4, printer) as usize,
            room: numbered(entry, first + 5, printer) as usize,
        }
    }
}

// What a run answered, and the cells that were lent for it.
#[derive(Clone, Copy)]
pub(crate) struct Answered {
    pub(crate) answer: Answer,
    pub(crate) cells: Space,
}

// Runs a translation's file, in cells as they were left before.
pub(crate) fn ran(
    file: &Space,
    readings: &[i32],
    g: Given,
    before: Space,
    printer: &mut Printer,
) -> Answered {
    let size = within(g.size, SPACE_BYTES, printer);
    let lent_bytes = within(g.lent, SPACE_BYTES, printer);
    let mut cells = before;
    let mut lent: &mut [u8] = &mut cells[..lent_bytes];
    let answer = run(&file[..size], readings, g.allowances, &mut lent);
    Answered { answer, cells }
}

// Translates and runs a sheet in one call, with new cells.
fn joined(
    sheet: &Space,
    out: &mut Space,
    readings: &[i32],
    g: Given,
    printer: &mut Printer,
) -> Answered {
    let size = within(g.size, SPACE_BYTES, printer);
    let room = within(g.room, SPACE_BYTES, printer);
    let lent_bytes = within(g.lent, SPACE_BYTES, printer);
    let mut cells = filled();
    let mut lent: &mut [u8] = &mut cells[..lent_bytes];
    let answer = translate_and_run(
        &sheet[..size],
        &mut out[..room],
        readings,
        g.allowances,
        &mut lent,
    );
    Answered { answer, cells }
}

// The same in two calls.
fn in_two_calls(
    sheet: &Space,
    out: &mut Space,
    readings: &[i32],
    g: Given,
    printer: &mut Printer,
) -> Answered {
    match translated(sheet, g.size, out, g.room, printer) {
        Ok(size) => ran(out, readings, Given { size, ..g }, filled(), printer),
        Err(refusal) => Answered {
            answer: Answer::from(refusal),
            cells: filled(),
        },
    }
}

// Whether a refused call left its output as it was before, and any other wrote what the translator alone writes.
fn output_right(answer: Answer, out: &Space, alone: &Space) -> bool {
    match answer.outcome {
        Outcome::Refused { .. } => *out == filled(),
        _ => out == alone,
    }
}

// Whether lent cells start with as many cells of the file of cells as the answer counts, and past them are as they were before.
pub(crate) fn cells_right(count: u16, cells: &Space, expected: &File) -> bool {
    *cells == filled_past(&expected.bytes, CELL_BYTES * usize::from(count))
}

// An answer's record, as it is written.
pub(crate) fn recorded(answer: Answer) -> [u8; ANSWER_BYTES] {
    let mut record = [0u8; ANSWER_BYTES];
    let _ = write_answer(answer, &mut record);
    record
}

// Shows the fields of an answer's record.
pub(crate) fn show_answer(answer: Answer, printer: &mut Printer) {
    show_record(&recorded(answer), printer);
}

// A trial of a run of a sheet, in one call and in two. The entry has the allowances, the bytes lent for cells, the sheet's
// bytes, the output's bytes, the changes, and the readings.
pub(crate) fn try_joined(entry: &[u8], base: &Space, expected: &File, printer: &mut Printer) {
    let sheet = changed(entry, base, printer);
    let readings = Readings::of(entry, printer);
    let g = Given::of(entry, 0, printer);
    let mut out = filled();
    let one = joined(&sheet, &mut out, readings.listed(), g, printer);
    let mut alone = filled();
    let two = in_two_calls(&sheet, &mut alone, readings.listed(), g, printer);
    show_entry("  ", entry, ": ", printer);
    show_answer(one.answer, printer);
    show_whether(
        cells_right(one.answer.cells, &one.cells, expected),
        ", cells",
        ", CELLS WRONG",
        printer,
    );
    show_whether(
        output_right(one.answer, &out, &alone),
        " and output right",
        ", OUTPUT WRONG",
        printer,
    );
    show_whether(
        recorded(one.answer) == recorded(two.answer) && one.cells == two.cells,
        ", the same in two calls\n",
        ", NOT THE SAME IN TWO CALLS\n",
        printer,
    );
}

// A trial of a run of a translation. The entry has the allowances, the bytes lent for cells, the translation's bytes, the
// changes, and the readings.
pub(crate) fn try_run(entry: &[u8], base: &Space, expected: &File, printer: &mut Printer) {
    let translation = changed(entry, base, printer);
    let readings = Readings::of(entry, printer);
    let g = Given::of(entry, 0, printer);
    let ran = ran(&translation, readings.listed(), g, filled(), printer);
    show_entry("  ", entry, ": ", printer);
    show_answer(ran.answer, printer);
    show_whether(
        cells_right(ran.answer.cells, &ran.cells, expected),
        ", cells right\n",
        ", CELLS WRONG\n",
        printer,
    );
}
