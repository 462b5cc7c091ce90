// A trial of a reader: a file with some of its words changed is read, and a line says what the reader answers.
use crate::files::{changed, within};
use crate::printer::Printer;
use crate::shown::{show_entry, show_refusal};
use crate::text::{WORDS, number, rest};
use definitions::Layout;
use definitions::refusals::Refusal;
use file_writer::{SPACE_BYTES, Space};
use format::sheet::read_sheet;
use format::translation::read_translation;

// What the reader of a layout says of a file.
fn read(layout: Layout, file: &[u8]) -> Result<(), Refusal> {
    match layout {
        Layout::Sheet => {
            read_sheet(file)?;
        }
        Layout::Translation => {
            read_translation(file)?;
        }
    }
    Ok(())
}

// A trial. The entry has the number of bytes that are read, the changes, and after a comma what the trial is.
pub(crate) fn try_reader(entry: &[u8], layout: Layout, base: &Space, printer: &mut Printer) {
    let file = changed(entry, base, printer);
    let stated = number(rest(entry, WORDS), printer) as usize;
    show_entry("  ", entry, ": ", printer);
    let size = within(stated, SPACE_BYTES, printer);
    match read(layout, &file[..size]) {
        Ok(()) => printer.write(b"accepted"),
        Err(refusal) => show_refusal(refusal, printer),
    }
    printer.write(b"\n");
}
