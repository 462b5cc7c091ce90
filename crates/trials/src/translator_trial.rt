// A trial of the translator: a sheet is translated, and a line says what was answered, whether the output is what it should
// be, and where asking for the length answers otherwise.
use crate::files::{File, filled, filled_past, within};
use crate::length_trial::asked;
use crate::printer::Printer;
use crate::shown::{show_refusal, show_whether};
use crate::text::numbered;
use definitions::refusals::Refusal;
use file_writer::{SPACE_BYTES, Space};
use translator::translate;

// Whether an output is as it was before, past the first `changed` bytes.
pub(crate) fn rest_kept(out: &Space, changed: usize) -> bool {
    *out == filled_past(out, changed)
}

// Translates the first `size` bytes of a sheet's file into the first `room` bytes of an output.
pub(crate) fn translated(
    sheet: &Space,
    size: usize,
    out: &mut Space,
    room: usize,
    printer: &mut Printer,
) -> Result<usize, Refusal> {
    let size = within(size, SPACE_BYTES, printer);
    let room = within(room, SPACE_BYTES, printer);
    translate(&sheet[..size], &mut out[..room])
}

// A trial. The entry has the sheet's bytes and the output's. The expected output is the expected translation and past it what stood
// there before; where the sheet is refused, the whole output is what stood there before.
pub(crate) fn try_translator(entry: &[u8], sheet: &Space, expected: &File, printer: &mut Printer) {
    let size = numbered(entry, 0, printer) as usize;
    let room = numbered(entry, 1, printer) as usize;
    let mut out = filled();
    printer.print(format_args!("  {size} bytes into {room}: "));
    let answer = translated(sheet, size, &mut out, room, printer);
    let length = asked(sheet, size, room, printer);
    let right = match answer {
        Ok(n) => {
            printer.print(format_args!("length {n}"));
            n == expected.size && out == expected.bytes
        }
        Err(refusal) => {
            show_refusal(refusal, printer);
            out == filled()
        }
    };
    show_whether(answer == length, "", ", LENGTH ASKED: OTHERWISE", printer);
    show_whether(
        right,
        ", output as it should be\n",
        ", OUTPUT WRONG\n",
        printer,
    );
}
