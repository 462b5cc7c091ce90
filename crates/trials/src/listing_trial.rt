// A trial of a context listing: a line says what was answered, and the labels that were written.
use crate::files::{filled, within};
use crate::printer::Printer;
use crate::shown::{show_entry, show_refusal, show_whether};
use crate::text::numbered;
use crate::translator_trial::rest_kept;
use cells::listing::list_context;
use definitions::refusals::Refusal;
use file_fields::bytes::word;
use file_writer::{SPACE_BYTES, Space};

// Shows what was answered, and answers how many bytes of the output should have changed: two for each label.
fn show_answer(answer: Result<usize, Refusal>, out: &Space, printer: &mut Printer) -> usize {
    match answer {
        Ok(n) => {
            let labels = n.min(SPACE_BYTES);
            printer.print(format_args!("count {n}"));
            for i in 0..labels {
                let label = word(out, 2 * i);
                printer.print(format_args!(" {label}"));
            }
            2 * labels
        }
        Err(refusal) => {
            show_refusal(refusal, printer);
            0
        }
    }
}

// A trial. The entry has the cell, the bytes lent for cells and the output's bytes.
pub(crate) fn try_listing(entry: &[u8], cells: &Space, printer: &mut Printer) {
    let mut out = filled();
    let c = numbered(entry, 0, printer) as usize;
    let stated_lent = numbered(entry, 1, printer) as usize;
    let stated_room = numbered(entry, 2, printer) as usize;
    let lent = within(stated_lent, SPACE_BYTES, printer);
    let room = within(stated_room, SPACE_BYTES, printer);
    let answer = list_context(&cells[..lent], c, &mut out[..room]);
    show_entry("  cell ", entry, ": ", printer);
    let changed = show_answer(answer, &out, printer);
    show_whether(
        rest_kept(&out, changed),
        ", the rest as it was\n",
        ", THE REST CHANGED\n",
        printer,
    );
}
