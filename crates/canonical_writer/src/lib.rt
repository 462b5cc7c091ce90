// The canonical form of a sheet: a sheet's bytes in, the bytes of its canonical form out (document 02, request 13).
#![tactic(auto)]

ghost use Rattle.definitions.specs.Refusals.{as_written};
ghost use Rattle.tree_classes.specs.Classes.{EndedSheet};
ghost use Rattle.canonical_writer.specs.Promise.{WritesCanonical};

mod order;
mod sizes;
mod writing;

use crate::order::fill_order;
use crate::sizes::fill_sizes;
use crate::writing::write;
use definitions::refusals::{Reason, Refusal, require};
use definitions::sizes::{Ends, MOST_FUNCTIONS, MOST_NODES, MOST_RECORDS, Starts};
use format::sheet::fill_sheet;

// Writes the canonical form of a sheet into a lent output. The answer is its length, and the output starts with the canonical form
// and stays as it was past it; or it is the refusal, and the output stays as it was.
pub fn write_canonical(sheet: &[u8], out: &mut [u8]) -> Result<usize, Refusal>
    ensures { WritesCanonical sheet.now out.old (as_written result) out.new }
{
    let mut starts = [0u16; MOST_RECORDS];
    let mut ends = [0u16; MOST_FUNCTIONS];
    let mut owners = [0u8; MOST_NODES];
    fill_sheet(sheet, &mut starts, &mut ends, &mut owners)?;
    write_accepted(sheet, &starts, &ends, out)
}

// Writes the canonical form of an accepted sheet, which has the sheet's length.
fn write_accepted(
    sheet: &[u8],
    starts: &Starts,
    ends: &Ends,
    out: &mut [u8],
) -> Result<usize, Refusal>
    requires { EndedSheet sheet.now starts.now ends.now }
    ensures { WritesCanonical sheet.now out.old (as_written result) out.new }
{
    require(sheet.len() <= out.len(), Reason::ShortOutput)?;
    let mut sizes = [0u16; MOST_NODES];
    fill_sizes(sheet, starts, &mut sizes);
    let mut order = [0u16; MOST_NODES];
    fill_order(sheet, starts, ends, &sizes, &mut order);
    let length = write(sheet, starts, &sizes, &order, out);
    Ok(length)
}
