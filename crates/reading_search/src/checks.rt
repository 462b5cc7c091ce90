// What a search is refused for on an accepted file.
ghost use Rattle.std.specs.Prelude.{◌≡◌};
ghost use Rattle.definitions.specs.Refusals.{as_verdict};
ghost use Rattle.reading_search.specs.Promise.{search_checks};

use crate::query::Query;
use allowances::Allowances;
use definitions::refusals::{Reason, Refusal, require};
use file_layout::layout;

// 9, then 10, then 23, for so many readings given and cell bytes lent.
pub(crate) fn check_search(
    file: &[u8],
    given: usize,
    query: Query,
    allowances: Allowances,
    lent: usize,
) -> Result<(), Refusal>
    ensures { as_verdict result
        ≡ search_checks file.now given query.position query.lowest query.highest allowances.nesting allowances.cells lent }
{
    let width = usize::from(layout::readings(file));
    let counted = require(given == width, Reason::BadReadings);
    let within = require(allowances.fit(lent), Reason::BadAllowance);
    let ranged = require(query.range_fits(file), Reason::BadRange);
    counted.and(within).and(ranged)
}
