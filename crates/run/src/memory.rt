// What a formal's cell remembers of it: recalled before its actual is visited, and remembered after.
ghost use Rattle.std.specs.Prelude.{◌≡◌, cond, eqb};
ghost use Rattle.cells.specs.LentCells.{callee_at, entry_number};
ghost use Rattle.run.specs.Packed.{outcome_in};
ghost use Rattle.run.specs.States.{ending_of, bytes_remembering};

use crate::packed::is_value;
use cells::cell::callee_at;
use cells::entry::{entry_at, write_entry};

// Whether a call of function `f` made cell `c`.
pub(crate) fn is_own(cells: &mut [u8], c: u16, f: u16) -> bool
    ensures { (result ≡ eqb f (callee_at cells.old c)) × (cells.new ≡ cells.old) }
{
    f == callee_at(cells, c)
}

// Entry `i` of cell `c`, and none where the cell is not the formal's own.
pub(crate) fn recall(cells: &mut [u8], own: bool, c: u16, i: u16) -> u64
    ensures { (result ≡ cond own (entry_number cells.old c i) 0) × (cells.new ≡ cells.old) }
{
    if own { entry_at(cells, c, i) } else { 0 }
}

// Has a value remembered in entry `i` of cell `c`, where the cell is the formal's own; a stop or a run fault never is.
pub(crate) fn remember(cells: &mut [u8], own: bool, c: u16, i: u16, x: u64)
    ensures { cells.new ≡ bytes_remembering own cells.old c i (ending_of (outcome_in x)) }
{
    if own && is_value(x) {
        write_entry(cells, c, i, x);
    }
}
