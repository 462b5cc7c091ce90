// The run of a translation on several rows of readings in one call (document 02, request 1).
#![tactic(auto)]

ghost use Rattle.std.specs.Prelude.{◌≡◌};
ghost use Rattle.definitions.specs.Refusals.{as_written};
ghost use Rattle.batch.specs.Promise.{RunsRows};

mod checks;
mod rows;

use crate::checks::check_rows;
use crate::rows::run_each;
use allowances::Allowances;
use definitions::refusals::Refusal;
use definitions::sizes::ANSWER_BYTES;
use run::node_table::TABLE_ENTRIES;
use run::read_file;

// Runs a translation on each of `rows` rows of readings, which stand one after the other, with one set of allowances, in turn in
// the same lent cells, and writes an answer record for each row. The answer is the length of the records, and the lent bytes past
// them stay as they were; or it is the refusal, and both lent buffers stay as they were. The slice behind `cells` stays the same.
pub fn run_rows(
    file: &[u8],
    rows: u32,
    readings: &[i32],
    allowances: Allowances,
    cells: &mut &mut [u8],
    records: &mut [u8],
) -> Result<usize, Refusal>
    ensures { RunsRows file.now rows readings.now allowances.steps allowances.nesting allowances.cells cells.old.now records.old
        (as_written result) cells.new.now records.new
        × (cells.new.ref_ptr ≡ cells.old.ref_ptr) }
{
    let mut table = [0u64; TABLE_ENTRIES];
    read_file(file, &mut table)?;
    check_rows(
        file,
        rows,
        readings.len(),
        allowances,
        cells.len(),
        records.len(),
    )?;
    let count = rows as usize;
    run_each(
        file, &mut table, count, readings, allowances, cells, records,
    );
    Ok(count * ANSWER_BYTES)
}
