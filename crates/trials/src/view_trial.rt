// A trial of the driver's view: a line says what was answered, and what the output then shows.
use crate::files::{changed, filled, within};
use crate::printer::Printer;
use crate::shown::{show_entry, show_refusal, show_value, show_whether};
use crate::text::numbered;
use crate::translator_trial::rest_kept;
use definitions::refusals::Refusal;
use definitions::sizes::VIEW_BYTES;
use driver_view::write_view;
use file_fields::bytes::{word, word32};
use file_writer::{SPACE_BYTES, Space};

// Shows what was answered, and answers how many bytes of the output should have changed: those of the view.
fn show_answer(answer: Result<usize, Refusal>, out: &Space, printer: &mut Printer) -> usize {
    match answer {
        Ok(n) => {
            let shown = word(out, 0);
            printer.print(format_args!("length {n} shows {shown}"));
            show_value(word32(out, 2).cast_signed(), printer);
            VIEW_BYTES
        }
        Err(refusal) => {
            show_refusal(refusal, printer);
            0
        }
    }
}

// A trial. The entry has the bytes that are lent, the output's bytes, and the changes.
pub(crate) fn try_view(entry: &[u8], base: &Space, printer: &mut Printer) {
    let file = changed(entry, base, printer);
    let mut out = filled();
    let stated_size = numbered(entry, 0, printer) as usize;
    let stated_room = numbered(entry, 1, printer) as usize;
    let size = within(stated_size, SPACE_BYTES, printer);
    let room = within(stated_room, SPACE_BYTES, printer);
    let answer = write_view(&file[..size], &mut out[..room]);
    show_entry("  view ", entry, ": ", printer);
    let changed = show_answer(answer, &out, printer);
    show_whether(
        rest_kept(&out, changed),
        ", the rest as it was\n",
        ", THE REST CHANGED\n",
        printer,
    );
}
