// What rows of readings are refused for on an accepted file.
ghost use Rattle.std.specs.Prelude.{◌≡◌, ◌&&◌, leb};
ghost use Rattle.definitions.specs.Sizes.{most_rows};
ghost use Rattle.definitions.specs.Refusals.{as_verdict};
ghost use Rattle.definitions.specs.Run.{allowances_fit};
ghost use Rattle.batch.specs.Promise.{rows_checks};

use allowances::Allowances;
use definitions::refusals::{Reason, Refusal, require};
use definitions::sizes::{ANSWER_BYTES, MOST_ROWS};
use file_layout::layout;

// Whether the rows and the allowances are within their ceilings.
fn rows_allowed(rows: u32, allowances: Allowances, lent: usize) -> bool
    ensures { result ≡ (leb rows most_rows && allowances_fit allowances.nesting allowances.cells lent) }
{
    rows <= MOST_ROWS && allowances.fit(lent)
}

// 9, then 10, then 8, for so many readings given, cell bytes lent and bytes of room for records.
pub(crate) fn check_rows(
    file: &[u8],
    rows: u32,
    given: usize,
    allowances: Allowances,
    lent: usize,
    room: usize,
) -> Result<(), Refusal>
    ensures { as_verdict result ≡ rows_checks file.now rows given allowances.nesting allowances.cells lent room }
{
    let count = rows as usize;
    let width = usize::from(layout::readings(file));
    let counted = require(given == count * width, Reason::BadReadings);
    let within = require(rows_allowed(rows, allowances, lent), Reason::BadAllowance);
    let roomy = require(count * ANSWER_BYTES <= room, Reason::ShortOutput);
    counted.and(within).and(roomy)
}
