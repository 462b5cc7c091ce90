// The calls of the library `zifnora_c`, exported to C and Rust from a static library: a crate is one or the other. Each export calls
// the library's function of its name and repeats its clauses. include/zifnora.h says the same for C.
#![tactic(auto)]

ghost use Rattle.std.specs.Prelude.{◌≡◌};
ghost use Rattle.definitions.specs.ReadingSearch.{query};
ghost use Rattle.zifnora_c.specs.Promise.{translation_code, TranslatesC, WritesCanonicalC, RunsC, RunsForHirerC, RunsRowsC, FindsReadingC, JoinsC, ListsC, WritesViewC};

// Translates a sheet into a lent output.
#[unsafe(no_mangle)]
pub extern "C" fn zifnora_translate(sheet: &[u8], out: &mut [u8]) -> u64
    ensures { TranslatesC sheet.now out.old result out.new }
{
    zifnora_c::zifnora_translate(sheet, out)
}

// What translating a sheet into an output of `room` bytes would answer.
#[unsafe(no_mangle)]
pub extern "C" fn zifnora_translated_length(sheet: &[u8], room: u64) -> u64
    ensures { result ≡ translation_code sheet.now room }
{
    zifnora_c::zifnora_translated_length(sheet, room)
}

// Writes a sheet in canonical form into a lent output.
#[unsafe(no_mangle)]
pub extern "C" fn zifnora_canonical_sheet(sheet: &[u8], out: &mut [u8]) -> u64
    ensures { WritesCanonicalC sheet.now out.old result out.new }
{
    zifnora_c::zifnora_canonical_sheet(sheet, out)
}

// Runs a translation, and writes the answer's record.
#[unsafe(no_mangle)]
pub extern "C" fn zifnora_run_slice(
    file: &[u8],
    readings: &[i32],
    steps: u32,
    nesting: u32,
    cells_allowed: u32,
    cells: &mut &mut [u8],
    rec: &mut [u8],
) -> u64
    ensures { RunsC file.now readings.now steps nesting cells_allowed cells.old.now rec.old result cells.new.now rec.new
        × (cells.new.ref_ptr ≡ cells.old.ref_ptr) }
{
    zifnora_c::zifnora_run_slice(file, readings, steps, nesting, cells_allowed, cells, rec)
}

// Runs a translation for a hirer, with a set of allowed readings, and writes the answer's record.
#[unsafe(no_mangle)]
pub extern "C" fn zifnora_run_for_hirer_slice(
    file: &[u8],
    set: u32,
    readings: &[i32],
    steps: u32,
    nesting: u32,
    cells_allowed: u32,
    cells: &mut &mut [u8],
    rec: &mut [u8],
) -> u64
    ensures { RunsForHirerC file.now set readings.now steps nesting cells_allowed cells.old.now rec.old result
        cells.new.now rec.new
        × (cells.new.ref_ptr ≡ cells.old.ref_ptr) }
{
    zifnora_c::zifnora_run_for_hirer_slice(
        file,
        set,
        readings,
        steps,
        nesting,
        cells_allowed,
        cells,
        rec,
    )
}

// Runs a translation on rows of readings in turn, and writes their answers' records.
#[unsafe(no_mangle)]
pub extern "C" fn zifnora_run_rows_slice(
    file: &[u8],
    rows: u32,
    readings: &[i32],
    steps: u32,
    nesting: u32,
    cells_allowed: u32,
    cells: &mut &mut [u8],
    records: &mut [u8],
) -> u64
    ensures { RunsRowsC file.now rows readings.now steps nesting cells_allowed cells.old.now records.old result
        cells.new.now records.new
        × (cells.new.ref_ptr ≡ cells.old.ref_ptr) }
{
    zifnora_c::zifnora_run_rows_slice(
        file,
        rows,
        readings,
        steps,
        nesting,
        cells_allowed,
        cells,
        records,
    )
}

// Finds the smallest value of a range for a reading with which the run of a translation ends in a wanted number.
#[unsafe(no_mangle)]
pub extern "C" fn zifnora_find_reading_slice(
    file: &[u8],
    readings: &[i32],
    position: u32,
    lowest: i32,
    highest: i32,
    wanted: i32,
    steps: u32,
    nesting: u32,
    cells_allowed: u32,
    cells: &mut &mut [u8],
) -> u64
    ensures { FindsReadingC file.now readings.now (query position lowest highest wanted) steps nesting cells_allowed cells.old.now result
        cells.new.now
        × (cells.new.ref_ptr ≡ cells.old.ref_ptr) }
{
    zifnora_c::zifnora_find_reading_slice(
        file,
        readings,
        position,
        lowest,
        highest,
        wanted,
        steps,
        nesting,
        cells_allowed,
        cells,
    )
}

// Translates a sheet and runs the translation, and writes the answer's record.
#[unsafe(no_mangle)]
pub extern "C" fn zifnora_translate_and_run_slice(
    sheet: &[u8],
    out: &mut [u8],
    readings: &[i32],
    steps: u32,
    nesting: u32,
    cells_allowed: u32,
    cells: &mut &mut [u8],
    rec: &mut [u8],
) -> u64
    ensures { JoinsC sheet.now out.old readings.now steps nesting cells_allowed cells.old.now rec.old result
        out.new cells.new.now rec.new
        × (cells.new.ref_ptr ≡ cells.old.ref_ptr) }
{
    zifnora_c::zifnora_translate_and_run_slice(
        sheet,
        out,
        readings,
        steps,
        nesting,
        cells_allowed,
        cells,
        rec,
    )
}

// Lists the context of a cell.
#[unsafe(no_mangle)]
pub extern "C" fn zifnora_list_context(cells: &[u8], cell: u32, out: &mut [u8]) -> u64
    ensures { ListsC cells.now cell out.old result out.new }
{
    zifnora_c::zifnora_list_context(cells, cell, out)
}

// Writes the driver's view of an answer record.
#[unsafe(no_mangle)]
pub extern "C" fn zifnora_driver_view(rec: &[u8], out: &mut [u8]) -> u64
    ensures { WritesViewC rec.now out.old result out.new }
{
    zifnora_c::zifnora_driver_view(rec, out)
}
