// The runs of an accepted translation on rows of readings, in turn.
ghost use Rattle.std.specs.Prelude.{◌≡◌, ◌+◌, ◌*◌, ◌≤◌, length};
ghost use Rattle.definitions.specs.Sizes.{answer_size};
ghost use Rattle.definitions.specs.Layouts as Layouts;
ghost use Rattle.definitions.specs.RunsInTurn.{row_of};
ghost use Rattle.answer.specs.Answers.{answer_of};
ghost use Rattle.run.specs.NodeTable.{Readable};
ghost use Rattle.batch.specs.Rows.{RowFits, RowsFit, record_put, RanRow, RanRows};

use allowances::Allowances;
use answer::{Answer, write_answer};
use definitions::sizes::ANSWER_BYTES;
use file_layout::layout;
use run::node_table::Table;
use run::run_table;

// The readings of a row.
fn row_of<'a>(file: &[u8], readings: &'a [i32], row: usize) -> &'a [i32]
    requires { row * Layouts.readings file.now + Layouts.readings file.now ≤ length readings.now }
    ensures { result.now ≡ row_of file.now readings.now row }
{
    let width = usize::from(layout::readings(file));
    let start = row * width;
    let end = start + width;
    &readings[start..end]
}

// Writes an answer's record in a row's place.
fn put_record(a: Answer, row: usize, records: &mut [u8])
    requires { row * answer_size + answer_size ≤ length records.old }
    ensures { records.new ≡ record_put records.old row (answer_of a) }
{
    let start = row * ANSWER_BYTES;
    let _ = write_answer(a, &mut records[start..]);
}

// Runs a row, and writes its record.
fn run_row(
    file: &[u8],
    table: &mut Table,
    row: usize,
    readings: &[i32],
    allowances: Allowances,
    cells: &mut &mut [u8],
    records: &mut [u8],
)
    requires { Readable file.now table.old × RowFits file.now readings.now (length records.old) row }
    ensures { RanRow file.now row readings.now allowances.steps allowances.nesting allowances.cells cells.old.now records.old
        cells.new.now records.new
        × (cells.new.ref_ptr ≡ cells.old.ref_ptr)
        × Readable file.now table.new }
{
    let part = row_of(file, readings, row);
    let answer = run_table(file, table, part, allowances, cells);
    put_record(answer, row, records);
}

// Runs the first `rows` rows in turn, and writes their records.
pub(crate) fn run_each(
    file: &[u8],
    table: &mut Table,
    rows: usize,
    readings: &[i32],
    allowances: Allowances,
    cells: &mut &mut [u8],
    records: &mut [u8],
)
    requires { Readable file.now table.old × RowsFit file.now readings.now (length records.old) rows }
    ensures { RanRows file.now rows readings.now allowances.steps allowances.nesting allowances.cells cells.old.now records.old
        cells.new.now records.new
        × (cells.new.ref_ptr ≡ cells.old.ref_ptr) }
{
    for row in 0..rows {
        run_row(file, table, row, readings, allowances, cells, records);
    }
}
