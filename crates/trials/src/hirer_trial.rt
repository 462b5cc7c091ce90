// A trial of a hirer's run: a line says what was answered, by the fields of the answer's record, whether the lent cells are what
// they should be, and whether the owner's run gives the same record and cells.
use crate::files::{File, Readings, changed, filled, within};
use crate::printer::Printer;
use crate::run_trial::{Answered, Given, cells_right, ran, recorded, show_answer};
use crate::shown::{show_entry, show_whether};
use crate::text::numbered;
use file_writer::{SPACE_BYTES, Space};
use hirer::run_for_hirer;

// Runs a translation for a hirer, with new cells.
fn ran_for_hirer(
    file: &Space,
    set: u32,
    readings: &[i32],
    g: Given,
    printer: &mut Printer,
) -> Answered {
    let size = within(g.size, SPACE_BYTES, printer);
    let lent_bytes = within(g.lent, SPACE_BYTES, printer);
    let mut cells = filled();
    let mut lent: &mut [u8] = &mut cells[..lent_bytes];
    let answer = run_for_hirer(&file[..size], set, readings, g.allowances, &mut lent);
    Answered { answer, cells }
}

// A trial. The entry has the set, the allowances, the bytes lent for cells, the translation's bytes, the changes, and the
// readings.
pub(crate) fn try_for_hirer(entry: &[u8], base: &Space, expected: &File, printer: &mut Printer) {
    let translation = changed(entry, base, printer);
    let readings = Readings::of(entry, printer);
    let set = numbered(entry, 0, printer);
    let g = Given::of(entry, 1, printer);
    let hirers = ran_for_hirer(&translation, set, readings.listed(), g, printer);
    let owners = ran(&translation, readings.listed(), g, filled(), printer);
    show_entry("  set ", entry, ": ", printer);
    show_answer(hirers.answer, printer);
    show_whether(
        cells_right(hirers.answer.cells, &hirers.cells, expected),
        ", cells right",
        ", CELLS WRONG",
        printer,
    );
    show_whether(
        recorded(hirers.answer) == recorded(owners.answer) && hirers.cells == owners.cells,
        ", as the owner's\n",
        ", not as the owner's\n",
        printer,
    );
}
