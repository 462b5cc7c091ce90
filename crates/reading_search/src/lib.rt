// The search for the value of a reading with which a translation's run ends in a wanted number (document 02, request 12).
#![tactic(auto)]

ghost use Rattle.std.specs.Prelude.{◌≡◌};
ghost use Rattle.definitions.specs.Refusals.{as_searched};
ghost use Rattle.reading_search.specs.Queries.{query_of};
ghost use Rattle.reading_search.specs.Promise.{FindsReading};

mod checks;
pub mod query;
mod search;

use crate::checks::check_search;
use crate::query::Query;
use crate::search::search_range;
use allowances::Allowances;
use definitions::refusals::Refusal;
use run::node_table::TABLE_ENTRIES;
use run::read_file;

// Finds the smallest value of a query's range for the reading at its position with which the run of a translation, on these
// readings but that one and with these allowances, ends in the number wanted. The runs are done in turn in the same lent cells, from
// the lowest value to the one found or the highest. A refusal leaves the lent cells as they were. The slice behind `cells` stays the same.
pub fn find_reading(
    file: &[u8],
    readings: &[i32],
    query: Query,
    allowances: Allowances,
    cells: &mut &mut [u8],
) -> Result<Option<i32>, Refusal>
    ensures { FindsReading file.now readings.now (query_of query) allowances.steps allowances.nesting allowances.cells cells.old.now
        (as_searched result) cells.new.now
        × (cells.new.ref_ptr ≡ cells.old.ref_ptr) }
{
    let mut table = [0u64; TABLE_ENTRIES];
    read_file(file, &mut table)?;
    check_search(file, readings.len(), query, allowances, cells.len())?;
    Ok(search_range(file, &mut table, readings, query, allowances, cells))
}
