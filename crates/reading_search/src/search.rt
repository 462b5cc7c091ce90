// The runs of a search, from the lowest value on.
ghost use Rattle.std.specs.Prelude.{◌≡◌, length, Ok};
ghost use Rattle.definitions.specs.Refusals.{as_searched};
ghost use Rattle.run.specs.NodeTable.{Readable};
ghost use Rattle.reading_search.specs.Queries.{query_of};
ghost use Rattle.reading_search.specs.Search.{Triable, Tried, SearchFits, Searches};

use crate::query::Query;
use allowances::Allowances;
use run::node_table::{Table, set_reading, set_readings};
use run::run_held;

// Runs the translation that a table holds with another value for one of its readings.
fn try_value(
    file: &[u8],
    table: &mut Table,
    query: Query,
    z: i32,
    allowances: Allowances,
    cells: &mut &mut [u8],
) -> bool
    requires { Triable file.now table.old query.position allowances.nesting allowances.cells cells.old.now }
    ensures { Tried file.now table.old query.position z query.wanted allowances.steps allowances.nesting allowances.cells cells.old.now
        result table.new cells.new.now
        × (cells.new.ref_ptr ≡ cells.old.ref_ptr) }
{
    set_reading(table, query.position as usize, z);
    let end = run_held(file, table, allowances, cells);
    query.ends_in(end.outcome)
}

// Tries the values of a range in turn, up to the first with which the run ends in the wanted number.
pub(crate) fn search_range(
    file: &[u8],
    table: &mut Table,
    readings: &[i32],
    query: Query,
    allowances: Allowances,
    cells: &mut &mut [u8],
) -> Option<i32>
    requires { Readable file.now table.old
        × SearchFits file.now readings.now (query_of query) allowances.nesting allowances.cells (length cells.old.now) }
    ensures { Searches file.now readings.now (query_of query) allowances.steps allowances.nesting allowances.cells cells.old.now
        (as_searched (Ok result)) cells.new.now
        × (cells.new.ref_ptr ≡ cells.old.ref_ptr) }
{
    set_readings(table, readings);
    let count = query.value_count();
    for left in (0..count).rev() {
        let i = count - 1 - left;
        let z = query.value_at(i);
        if try_value(file, table, query, z, allowances, cells) {
            return Some(z);
        }
    }
    None
}
