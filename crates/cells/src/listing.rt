// The context listing: the labels of a context, newest first, from lent cells.
ghost use Rattle.std.specs.Prelude.{◌≡◌, ◌*◌, length};
ghost use Rattle.definitions.specs.Listing.{labels_within};
ghost use Rattle.cells.specs.Listed.{as_listed};
ghost use Rattle.cells.specs.Listings.{counted, written, Listable, Lists};

use crate::cell::{label_at, previous_at};
use definitions::refusals::{Reason, Refusal, require};
use definitions::sizes::CELL_BYTES;
use file_fields::writing::put_word;

// How many labels the context of cell `c` has, or the first damaged cell that is met.
fn count_labels(cells: &[u8], c: usize) -> Result<usize, Refusal>
    ensures { as_listed result ≡ counted (labels_within cells.now c c) }
{
    let made = cells.len() / CELL_BYTES;
    let mut at = c;
    let mut n: usize = 0;
    // Both walks here have to stay loops (document 02, request 6): a function that called itself for each cell would show as a
    // page of equal frames in the service engineer's debugger.
    while at != 0 {
        let previous = usize::from(previous_at(cells, at));
        if made < at || at <= previous {
            return Err(Refusal {
                reason: Reason::OutOfRange,
                place: at,
            });
        }
        at = previous;
        n += 1;
    }
    Ok(n)
}

// Writes the labels of the context of cell `c`, of which there are `count`. This is a second walk, since 5 and 8 have to be known
// before the first byte is written: a refusal leaves the output as it was.
fn write_labels(cells: &[u8], c: usize, count: usize, out: &mut [u8])
    requires { Listable cells.now c count (length out.old) }
    ensures { out.new ≡ written (labels_within cells.now c c) 0 out.old }
{
    let mut at = c;
    for i in 0..count {
        put_word(out, 2 * i, label_at(cells, at));
        at = usize::from(previous_at(cells, at));
    }
}

// Lists the context of cell `c`: its labels, two bytes each, and their count.
pub fn list_context(cells: &[u8], c: usize, out: &mut [u8]) -> Result<usize, Refusal>
    ensures { Lists cells.now c out.old out.new (as_listed result) }
{
    let n = count_labels(cells, c)?;
    require(n <= out.len() / 2, Reason::ShortOutput)?;
    write_labels(cells, c, n, out);
    Ok(n)
}
