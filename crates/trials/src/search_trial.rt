// A trial of a search for a reading's value: a line says what was answered, whether the lent cells are what they should be, and
// whether single runs in turn, from the lowest value on, find the same and leave the same cells.
use crate::files::{File, Readings, changed, filled, within};
use crate::printer::Printer;
use crate::run_trial::{Given, cells_right, ran};
use crate::shown::{show_entry, show_refusal, show_value, show_whether};
use crate::text::{numbered, signed};
use answer::{Answer, Outcome};
use definitions::numbers;
use definitions::refusals::Refusal;
use file_writer::{SPACE_BYTES, Space};
use reading_search::find_reading;
use reading_search::query::Query;

// What an entry asks for: a position, the ends of a range, and the wanted number.
fn query_of(entry: &[u8], printer: &mut Printer) -> Query {
    Query {
        position: numbered(entry, 0, printer),
        lowest: signed(entry, 1, printer),
        highest: signed(entry, 2, printer),
        wanted: signed(entry, 3, printer),
    }
}

// How many values the range has.
fn value_count(q: Query) -> u32 {
    q.highest
        .wrapping_sub(q.lowest)
        .cast_unsigned()
        .wrapping_add(1)
}

// The value at which single runs gave the wanted number, the most cells that any counts, and the cells that they left.
#[derive(Clone, Copy)]
struct RanInTurn {
    found: Option<i32>,
    most: u16,
    cells: Space,
}

// Searches with new cells, and answers also the cells.
fn searched(
    file: &Space,
    readings: &[i32],
    q: Query,
    g: Given,
    printer: &mut Printer,
) -> (Result<Option<i32>, Refusal>, Space) {
    let size = within(g.size, SPACE_BYTES, printer);
    let lent_bytes = within(g.lent, SPACE_BYTES, printer);
    let mut cells = filled();
    let mut lent: &mut [u8] = &mut cells[..lent_bytes];
    let answer = find_reading(&file[..size], readings, q, g.allowances, &mut lent);
    (answer, cells)
}

// Whether an answer is the wanted number.
fn is_wanted(answer: Answer, wanted: i32) -> bool {
    match answer.outcome {
        Outcome::Number(z) => z == wanted,
        _ => false,
    }
}

// Makes at most `count` single runs in turn in the same new cells, from the lowest value on, to the first that gives the number.
fn ran_in_turn(
    file: &Space,
    readings: &mut Readings,
    q: Query,
    count: u32,
    g: Given,
    printer: &mut Printer,
) -> RanInTurn {
    let mut cells = filled();
    let mut most: u16 = 0;
    for offset in 0..count {
        let value = q.lowest.wrapping_add_unsigned(offset);
        readings.set(q.position, value);
        let ran = ran(file, readings.listed(), g, cells, printer);
        cells = ran.cells;
        most = most.max(ran.answer.cells);
        if is_wanted(ran.answer, q.wanted) {
            return RanInTurn {
                found: Some(value),
                most,
                cells,
            };
        }
    }
    RanInTurn {
        found: None,
        most,
        cells,
    }
}

// Shows what was answered, and answers how many runs there may be: none where the search is refused.
fn show_searched(answer: Result<Option<i32>, Refusal>, q: Query, printer: &mut Printer) -> u32 {
    match answer {
        Ok(Some(value)) => {
            printer.write(b"found");
            show_value(value, printer);
            value_count(q)
        }
        Ok(None) => {
            let number = numbers::NO_VALUE;
            printer.print(format_args!("none {number}"));
            value_count(q)
        }
        Err(refusal) => {
            show_refusal(refusal, printer);
            0
        }
    }
}

// A trial. The entry has the position, the lowest and the highest value, the wanted number, the allowances, the bytes lent for
// cells, the translation's bytes, the changes, and the readings.
pub(crate) fn try_search(entry: &[u8], base: &Space, expected: &File, printer: &mut Printer) {
    let translation = changed(entry, base, printer);
    let mut readings = Readings::of(entry, printer);
    let q = query_of(entry, printer);
    let g = Given::of(entry, 4, printer);
    let (answer, cells) = searched(&translation, readings.listed(), q, g, printer);
    show_entry("  find ", entry, ": ", printer);
    let runs = show_searched(answer, q, printer);
    let alone = ran_in_turn(&translation, &mut readings, q, runs, g, printer);
    show_whether(
        cells_right(alone.most, &cells, expected),
        ", cells right",
        ", CELLS WRONG",
        printer,
    );
    show_whether(
        answer.unwrap_or(None) == alone.found && cells == alone.cells,
        ", the same by single runs\n",
        ", NOT THE SAME BY SINGLE RUNS\n",
        printer,
    );
}
