// A trial of asking how long a translation would be: a line says what was answered.
use crate::files::within;
use crate::printer::Printer;
use crate::shown::{show_entry, show_refusal};
use crate::text::{is_negative, numbered};
use definitions::refusals::Refusal;
use file_writer::{SPACE_BYTES, Space};
use translation_length::translated_length;

// What asking for the length of the first `size` bytes of a sheet's file answers, for an output of `room` bytes.
pub(crate) fn asked(
    sheet: &Space,
    size: usize,
    room: usize,
    printer: &mut Printer,
) -> Result<usize, Refusal> {
    let size = within(size, SPACE_BYTES, printer);
    translated_length(&sheet[..size], room)
}

// The stated length of an entry: its number 1, or with a minus as many below the greatest number.
fn stated(entry: &[u8], printer: &mut Printer) -> usize {
    let length = numbered(entry, 1, printer) as usize;
    if is_negative(entry, 1) {
        return usize::MAX - length;
    }
    length
}

// A trial. The entry has the sheet's bytes and the stated length.
pub(crate) fn try_length(entry: &[u8], sheet: &Space, printer: &mut Printer) {
    let size = numbered(entry, 0, printer) as usize;
    let room = stated(entry, printer);
    let answer = asked(sheet, size, room, printer);
    show_entry("  length asked ", entry, ": ", printer);
    match answer {
        Ok(n) => printer.print(format_args!("length {n}")),
        Err(refusal) => show_refusal(refusal, printer),
    }
    printer.write(b"\n");
}
