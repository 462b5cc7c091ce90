// The hirer's run of a translation, with a set of allowed readings (document 02, request 5).
#![tactic(auto)]

ghost use Rattle.std.specs.Prelude.{◌≡◌, length};
ghost use Rattle.definitions.specs.Refusals.{as_verdict};
ghost use Rattle.run.specs.NodeTable.{table_entries};
ghost use Rattle.hirer.specs.Checks.{ReadForHirer};
ghost use Rattle.hirer.specs.Promise.{RunsForHirer};

mod closed;

use crate::closed::check_readings;
use allowances::Allowances;
use answer::Answer;
use definitions::refusals::{Reason, Refusal, require};
use file_layout::layout;
use run::node_table::{TABLE_ENTRIES, Table};
use run::{read_file, run_table};

// Reads a translation into a lent table, and checks the set and the number of readings: the file's own refusals, then 21, then 9.
fn read_for_hirer(file: &[u8], table: &mut Table, set: u32, readings: &[i32]) -> Result<(), Refusal>
    requires { length table.old ≡ table_entries }
    ensures { ReadForHirer file.now set readings.now (as_verdict result) table.new }
{
    read_file(file, table)?;
    let open = check_readings(file, table, set);
    let width = usize::from(layout::readings(file));
    let counted = require(readings.len() == width, Reason::BadReadings);
    open.and(counted)
}

// Runs a translation for a hirer, whose readings are those that `set` allows: bit i of it is reading i, and the bits past the
// readings that the translation asks for say nothing. It is refused where any node is a reading outside the set; else it is the
// run of `run::run`. A refusal leaves the lent cells as they were. The slice behind `cells` stays the same.
pub fn run_for_hirer(
    file: &[u8],
    set: u32,
    readings: &[i32],
    allowances: Allowances,
    cells: &mut &mut [u8],
) -> Answer
    ensures { RunsForHirer file.now set readings.now allowances.steps allowances.nesting allowances.cells cells.old.now result
        cells.new.now
        × (cells.new.ref_ptr ≡ cells.old.ref_ptr) }
{
    let mut table = [0u64; TABLE_ENTRIES];
    match read_for_hirer(file, &mut table, set, readings) {
        Err(refusal) => Answer::from(refusal),
        Ok(()) => run_table(file, &mut table, readings, allowances, cells),
    }
}
