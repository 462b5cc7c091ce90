// The run of a translation (document 01, "Run").
#![tactic(auto)]

ghost use Rattle.std.specs.Prelude.{◌≡◌, true, length};
ghost use Rattle.definitions.specs.Refusals.{as_verdict};
ghost use Rattle.definitions.specs.Run.{allowances_fit};
ghost use Rattle.run.specs.NodeTable.{table_entries, FileRead, Readable};
ghost use Rattle.run.specs.Promise.{Runs, RunsHeld};

mod answers;
mod formal_places;
mod going_on;
mod look_up;
mod memory;
pub mod node_table;
mod packed;
pub mod state;
mod visit;

use crate::answers::answered;
use crate::formal_places::fill_places;
use crate::look_up::first_body;
use crate::node_table::{TABLE_ENTRIES, Table, fill_nodes, set_readings};
use crate::packed::opened;
use crate::state::State;
use crate::visit::visit;
use allowances::Allowances;
use answer::{Answer, refused};
use definitions::numbers;
use definitions::refusals::Refusal;
use definitions::sizes::{MOST_FORMALS, MOST_FUNCTIONS, MOST_RECORDS};
use file_layout::layout;
use format::translation::fill_translation;
use live_counts::Counts;

// Reads a translation into a lent table. Of a refused file only the refusal counts.
pub fn read_file(file: &[u8], table: &mut Table) -> Result<(), Refusal>
    requires { length table.old ≡ table_entries }
    ensures { FileRead file.now (as_verdict result) table.new }
{
    let mut starts = [0u16; MOST_RECORDS];
    let mut ends = [0u16; MOST_FUNCTIONS];
    fill_translation(file, &mut starts, &mut ends)?;
    let mut places = [0u16; MOST_FORMALS];
    fill_places(&mut places, file, &starts);
    fill_nodes(table, file, &starts, &ends, &places);
    Ok(())
}

// Runs the translation that a table holds, on the readings that it holds: the state that the last visit leaves.
pub fn run_held(file: &[u8], table: &Table, allowances: Allowances, cells: &mut &mut [u8]) -> State
    requires { Readable file.now table.now × (allowances_fit allowances.nesting allowances.cells (length cells.old.now) ≡ true) }
    ensures { RunsHeld file.now table.now allowances.steps allowances.nesting allowances.cells cells.old.now result cells.new.now
        × (cells.new.ref_ptr ≡ cells.old.ref_ptr) }
{
    let limits = allowances.nesting + 0x1_0000 * allowances.cells;
    let first = u32::from(first_body(file));
    let mut counts = Counts {
        left: allowances.steps,
        live: 0,
        most: 0,
        oldest: 0,
    };
    let x = visit(&file, table, cells, &mut counts, limits, first);
    opened(x, counts.left, counts.most)
}

// Runs the translation that a table holds: the readings come into the table here, and its nodes stay, so that it can be run again.
pub fn run_table(
    file: &[u8],
    table: &mut Table,
    readings: &[i32],
    allowances: Allowances,
    cells: &mut &mut [u8],
) -> Answer
    requires { Readable file.now table.old }
    ensures { Runs file.now readings.now allowances.steps allowances.nesting allowances.cells cells.old.now result cells.new.now
        × (cells.new.ref_ptr ≡ cells.old.ref_ptr)
        × Readable file.now table.new }
{
    if readings.len() != usize::from(layout::readings(file)) {
        return refused(numbers::BAD_READINGS, 0);
    }
    if !allowances.fit(cells.len()) {
        return refused(numbers::BAD_ALLOWANCE, 0);
    }
    set_readings(table, readings);
    let end = run_held(file, table, allowances, cells);
    answered(table, end, allowances.steps)
}

// Runs a translation on a list of readings, with allowances of steps, nesting and live cells, in lent cells of 68 bytes. The answer
// is the rule's, and the lent bytes start with as many cells as were alive together at most and stay as they were past them; or it is
// the refusal, and the lent bytes stay as they were. The slice behind `cells` stays the same.
pub fn run(file: &[u8], readings: &[i32], allowances: Allowances, cells: &mut &mut [u8]) -> Answer
    ensures { Runs file.now readings.now allowances.steps allowances.nesting allowances.cells cells.old.now result cells.new.now
        × (cells.new.ref_ptr ≡ cells.old.ref_ptr) }
{
    let mut table = [0u64; TABLE_ENTRIES];
    match read_file(file, &mut table) {
        Err(refusal) => Answer::from(refusal),
        Ok(()) => run_table(file, &mut table, readings, allowances, cells),
    }
}
