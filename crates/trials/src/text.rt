// The text of the trials: entries, and the numbers in them. An entry begins at the start of a line with its letter, and goes
// on over the lines that begin with a blank. It is passed on from its letter up to the end of the text; its words start two bytes on.
use crate::printer::Printer;
use crate::shown::show_misfit;

const LINE_END: u8 = b'\n';

const BLANK: u8 = b' ';

// The numbers of an entry end at a comma, or with it.
pub(crate) const COMMA: u8 = b',';

const MINUS: u8 = b'-';

// Whether a byte can stand before a number.
fn is_before(byte: u8) -> bool {
    byte == BLANK || byte == LINE_END || byte == MINUS
}

// Whether the text has a byte at a place.
fn has(text: &[u8], at: usize, byte: u8) -> bool {
    text.get(at) == Some(&byte)
}

// Whether a line starts at a place, and whether an entry ends there.
pub(crate) fn line_starts(text: &[u8], at: usize) -> bool {
    at == 0 || has(text, at - 1, LINE_END)
}

fn entry_ends(text: &[u8], at: usize) -> bool {
    if at < text.len() {
        return text[at] == LINE_END && !has(text, at + 1, BLANK);
    }
    true
}

// The text from a place on.
pub(crate) fn rest(text: &[u8], from: usize) -> &[u8] {
    text.get(from..).unwrap_or(&[])
}

// Where the words of an entry start.
pub(crate) const WORDS: usize = 2;

// Where an entry ends.
pub(crate) fn entry_end(entry: &[u8]) -> usize {
    (WORDS..entry.len())
        .find(|&at| entry_ends(entry, at))
        .unwrap_or(entry.len())
}

// Where a byte first stands in an entry's words; else the entry's end.
pub(crate) fn until(entry: &[u8], byte: u8) -> usize {
    let end = entry_end(entry);
    (WORDS..end).find(|&at| has(entry, at, byte)).unwrap_or(end)
}

// Whether a number of its own starts at a place: a digit after a space or a minus.
pub(crate) fn number_starts(text: &[u8], at: usize) -> bool {
    if 0 < at && at < text.len() {
        return is_before(text[at - 1]) && text[at].is_ascii_digit();
    }
    false
}

// A number with one digit more, where it fits into 32 bits. The lower half of a digit's byte is its value.
fn with_digit(number: u32, digit: u8, printer: &mut Printer) -> u32 {
    let longer = 10 * u64::from(number) + u64::from(digit % 16);
    if 0x1_0000_0000 <= longer {
        show_misfit(printer);
    }
    (longer % 0x1_0000_0000) as u32
}

// The digits that a text starts with, and what follows them.
fn digits(text: &[u8]) -> (&[u8], &[u8]) {
    let end = text.iter().position(|byte| !byte.is_ascii_digit());
    text.split_at(end.unwrap_or(text.len()))
}

// The number that a text starts with, 0 where it starts with none.
pub(crate) fn number(text: &[u8], printer: &mut Printer) -> u32 {
    let (digits, _) = digits(text);
    let mut value: u32 = 0;
    for &digit in digits {
        value = with_digit(value, digit, printer);
    }
    value
}

// The word that a text starts with, where it fits into 16 bits.
pub(crate) fn word(text: &[u8], printer: &mut Printer) -> u16 {
    let value = number(text, printer);
    if 65536 <= value {
        show_misfit(printer);
    }
    (value % 65536) as u16
}

// What stands after one byte that follows the number that a text starts with, where that byte is as given; else nothing.
pub(crate) fn after(text: &[u8], byte: u8) -> &[u8] {
    match digits(text).1 {
        [first, rest @ ..] if *first == byte => rest,
        _ => &[],
    }
}

// Where number `k` of an entry starts, from 0; the text's end where it has not as many.
fn place(entry: &[u8], k: usize) -> usize {
    (WORDS..until(entry, COMMA))
        .filter(|&at| number_starts(entry, at))
        .nth(k)
        .unwrap_or(entry.len())
}

// The entry from number `k` on; nothing where it has not as many.
pub(crate) fn from_number(entry: &[u8], k: usize) -> &[u8] {
    rest(entry, place(entry, k))
}

// Number `k` of an entry, 0 where it has not as many.
pub(crate) fn numbered(entry: &[u8], k: usize, printer: &mut Printer) -> u32 {
    number(from_number(entry, k), printer)
}

// Whether a minus stands before number `k` of an entry.
pub(crate) fn is_negative(entry: &[u8], k: usize) -> bool {
    has_minus(entry, place(entry, k))
}

// Whether a minus stands before a place.
fn has_minus(text: &[u8], at: usize) -> bool {
    at != 0 && has(text, at - 1, MINUS)
}

// The number at a place, which is negative where a minus stands before it.
pub(crate) fn signed_at(text: &[u8], at: usize, printer: &mut Printer) -> i32 {
    let value = number(rest(text, at), printer).cast_signed();
    if has_minus(text, at) {
        return value.wrapping_neg();
    }
    value
}

// Number `k` of an entry, with its sign.
pub(crate) fn signed(entry: &[u8], k: usize, printer: &mut Printer) -> i32 {
    signed_at(entry, place(entry, k), printer)
}
