// A trial of writing a sheet in canonical form: a line says what was answered, whether the output is what it should be, and where writing
// it again changes a byte.
use crate::files::{File, changed, filled, within};
use crate::printer::Printer;
use crate::shown::{show_entry, show_refusal, show_whether};
use crate::text::numbered;
use canonical_writer::write_canonical;
use definitions::refusals::Refusal;
use file_writer::{SPACE_BYTES, Space};

// Writes the canonical form of the first `size` bytes of a sheet's file into the first `room` bytes of an output.
fn formed(
    sheet: &Space,
    size: usize,
    out: &mut Space,
    room: usize,
    printer: &mut Printer,
) -> Result<usize, Refusal> {
    let size = within(size, SPACE_BYTES, printer);
    let room = within(room, SPACE_BYTES, printer);
    write_canonical(&sheet[..size], &mut out[..room])
}

// Whether a form of `length` bytes is its own form.
fn own_form(form: &Space, length: usize, printer: &mut Printer) -> bool {
    let mut again = filled();
    formed(form, length, &mut again, length, printer) == Ok(length) && again == *form
}

// A trial. The entry has the sheet's bytes, the output's bytes, and the changes. The expected output is the expected form and past it
// what stood there before; where the sheet is refused, the whole output is what stood there before.
pub(crate) fn try_canonical(entry: &[u8], base: &Space, expected: &File, printer: &mut Printer) {
    let sheet = changed(entry, base, printer);
    let mut out = filled();
    let size = numbered(entry, 0, printer) as usize;
    let room = numbered(entry, 1, printer) as usize;
    let answer = formed(&sheet, size, &mut out, room, printer);
    show_entry("  canonical ", entry, ": ", printer);
    let right = match answer {
        Ok(n) => {
            printer.print(format_args!("length {n}"));
            let own = own_form(&out, n, printer);
            show_whether(own, "", ", AGAIN: OTHERWISE", printer);
            n == expected.size && out == expected.bytes
        }
        Err(refusal) => {
            show_refusal(refusal, printer);
            out == filled()
        }
    };
    show_whether(
        right,
        ", output as it should be\n",
        ", OUTPUT WRONG\n",
        printer,
    );
}
