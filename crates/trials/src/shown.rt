// What the trials write: their entries, refusals, and answers' records.
use crate::printer::Printer;
use crate::text::{WORDS, entry_end};
use definitions::answer_record;
use definitions::refusals::Refusal;
use file_fields::bytes::{word, word32};

// An entry's words between two others.
pub(crate) fn show_entry(before: &str, entry: &[u8], after: &str, printer: &mut Printer) {
    printer.write(before.as_bytes());
    printer.write(entry.get(WORDS..entry_end(entry)).unwrap_or(&[]));
    printer.write(after.as_bytes());
}

pub(crate) fn show_refusal(refusal: Refusal, printer: &mut Printer) {
    let number = refusal.reason.number();
    let place = refusal.place;
    printer.print(format_args!("refused {number} place {place}"));
}

// A part of the trials' text does not fit: what is shown is then not what is expected.
pub(crate) fn show_misfit(printer: &mut Printer) {
    printer.write(b" DOES NOT FIT ");
}

// One of two texts, by whether something holds.
pub(crate) fn show_whether(holds: bool, good: &str, bad: &str, printer: &mut Printer) {
    let text = if holds { good } else { bad };
    printer.write(text.as_bytes());
}

pub(crate) fn show_value(value: i32, printer: &mut Printer) {
    printer.print(format_args!(" value {value}"));
}

// The fields of an answer's record. Its length and its kind are not shown where they are right.
pub(crate) fn show_record(record: &[u8], printer: &mut Printer) {
    let length = word(record, answer_record::LENGTH_PLACE);
    let kind = word(record, answer_record::KIND_PLACE);
    let outcome = word(record, answer_record::OUTCOME_PLACE);
    let value = word32(record, answer_record::VALUE_PLACE).cast_signed();
    let steps = word32(record, answer_record::STEPS_PLACE);
    let node = word(record, answer_record::NODE_PLACE);
    let context = word(record, answer_record::CONTEXT_PLACE);
    let cells = word(record, answer_record::CELLS_PLACE);
    show_whether(
        length == answer_record::LENGTH,
        "",
        "WRONG LENGTH ",
        printer,
    );
    show_whether(kind == answer_record::KIND, "", "WRONG KIND ", printer);
    printer.print(format_args!("outcome {outcome} value {value} steps {steps}"));
    printer.print(format_args!(" node {node} context {context} cells {cells}"));
}
