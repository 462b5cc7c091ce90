// The calls for programs in C and Rust: numbers, slices of numbers, and a reference to a slice of cells, which stays the same
// slice. include/zifnora.h says the same for C; the static library `zifnora_exports` exports them under these names.
#![tactic(auto)]

ghost use Rattle.std.specs.Prelude.{◌≡◌};
ghost use Rattle.definitions.specs.ReadingSearch.{query};
ghost use Rattle.zifnora_c.specs.Promise.{translation_code, TranslatesC, WritesCanonicalC, RunsC, RunsForHirerC, RunsRowsC, FindsReadingC, JoinsC, ListsC, WritesViewC};

mod codes;

use crate::codes::{count_code, record_code, searched_code};
use allowances::Allowances;
use answer::write_answer;
use batch::run_rows;
use canonical_writer::write_canonical;
use cells::listing::list_context;
use driver_view::write_view;
use hirer::run_for_hirer;
use join::translate_and_run;
use reading_search::find_reading;
use reading_search::query::Query;
use run::run;
use translation_length::translated_length;
use translator::translate;

// Translates a sheet into a lent output.
pub fn zifnora_translate(sheet: &[u8], out: &mut [u8]) -> u64
    ensures { TranslatesC sheet.now out.old result out.new }
{
    count_code(translate(sheet, out))
}

// What translating a sheet into an output of `room` bytes would answer.
pub fn zifnora_translated_length(sheet: &[u8], room: u64) -> u64
    ensures { result ≡ translation_code sheet.now room }
{
    count_code(translated_length(sheet, room as usize))
}

// Writes a sheet in canonical form into a lent output.
pub fn zifnora_canonical_sheet(sheet: &[u8], out: &mut [u8]) -> u64
    ensures { WritesCanonicalC sheet.now out.old result out.new }
{
    count_code(write_canonical(sheet, out))
}

// Runs a translation, and writes the answer's record.
pub fn zifnora_run_slice(
    file: &[u8],
    readings: &[i32],
    steps: u32,
    nesting: u32,
    cells_allowed: u32,
    cells: &mut &mut [u8],
    rec: &mut [u8],
) -> u64
    ensures { RunsC file.now readings.now steps nesting cells_allowed cells.old.now rec.old result cells.new.now rec.new
        × (cells.new.ref_ptr ≡ cells.old.ref_ptr) }
{
    let short = record_code(rec);
    if short != 0 {
        return short;
    }
    let allowances = Allowances {
        steps,
        nesting,
        cells: cells_allowed,
    };
    let answer = run(file, readings, allowances, cells);
    let _ = write_answer(answer, rec);
    short
}

// Runs a translation for a hirer, with a set of allowed readings, and writes the answer's record.
pub fn zifnora_run_for_hirer_slice(
    file: &[u8],
    set: u32,
    readings: &[i32],
    steps: u32,
    nesting: u32,
    cells_allowed: u32,
    cells: &mut &mut [u8],
    rec: &mut [u8],
) -> u64
    ensures { RunsForHirerC file.now set readings.now steps nesting cells_allowed cells.old.now rec.old result
        cells.new.now rec.new
        × (cells.new.ref_ptr ≡ cells.old.ref_ptr) }
{
    let short = record_code(rec);
    if short != 0 {
        return short;
    }
    let allowances = Allowances {
        steps,
        nesting,
        cells: cells_allowed,
    };
    let answer = run_for_hirer(file, set, readings, allowances, cells);
    let _ = write_answer(answer, rec);
    short
}

// Runs a translation on rows of readings in turn, and writes their answers' records.
pub fn zifnora_run_rows_slice(
    file: &[u8],
    rows: u32,
    readings: &[i32],
    steps: u32,
    nesting: u32,
    cells_allowed: u32,
    cells: &mut &mut [u8],
    records: &mut [u8],
) -> u64
    ensures { RunsRowsC file.now rows readings.now steps nesting cells_allowed cells.old.now records.old result
        cells.new.now records.new
        × (cells.new.ref_ptr ≡ cells.old.ref_ptr) }
{
    let allowances = Allowances {
        steps,
        nesting,
        cells: cells_allowed,
    };
    count_code(run_rows(file, rows, readings, allowances, cells, records))
}

// Finds the smallest value of a range for a reading with which the run of a translation ends in a wanted number.
pub fn zifnora_find_reading_slice(
    file: &[u8],
    readings: &[i32],
    position: u32,
    lowest: i32,
    highest: i32,
    wanted: i32,
    steps: u32,
    nesting: u32,
    cells_allowed: u32,
    cells: &mut &mut [u8],
) -> u64
    ensures { FindsReadingC file.now readings.now (query position lowest highest wanted) steps nesting cells_allowed cells.old.now result
        cells.new.now
        × (cells.new.ref_ptr ≡ cells.old.ref_ptr) }
{
    let allowances = Allowances {
        steps,
        nesting,
        cells: cells_allowed,
    };
    let query = Query {
        position,
        lowest,
        highest,
        wanted,
    };
    searched_code(find_reading(file, readings, query, allowances, cells))
}

// Translates a sheet and runs the translation, and writes the answer's record.
pub fn zifnora_translate_and_run_slice(
    sheet: &[u8],
    out: &mut [u8],
    readings: &[i32],
    steps: u32,
    nesting: u32,
    cells_allowed: u32,
    cells: &mut &mut [u8],
    rec: &mut [u8],
) -> u64
    ensures { JoinsC sheet.now out.old readings.now steps nesting cells_allowed cells.old.now rec.old result
        out.new cells.new.now rec.new
        × (cells.new.ref_ptr ≡ cells.old.ref_ptr) }
{
    let short = record_code(rec);
    if short != 0 {
        return short;
    }
    let allowances = Allowances {
        steps,
        nesting,
        cells: cells_allowed,
    };
    let answer = translate_and_run(sheet, out, readings, allowances, cells);
    let _ = write_answer(answer, rec);
    short
}

// Lists the context of a cell.
pub fn zifnora_list_context(cells: &[u8], cell: u32, out: &mut [u8]) -> u64
    ensures { ListsC cells.now cell out.old result out.new }
{
    count_code(list_context(cells, cell as usize, out))
}

// Writes the driver's view of an answer record.
pub fn zifnora_driver_view(rec: &[u8], out: &mut [u8]) -> u64
    ensures { WritesViewC rec.now out.old result out.new }
{
    count_code(write_view(rec, out))
}
