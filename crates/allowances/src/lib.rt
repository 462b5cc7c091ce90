// The allowances of a run, and whether they are within their ceilings (document 01, "Allowances").
#![tactic(auto)]

ghost use Rattle.std.specs.Prelude.{◌≡◌};
ghost use Rattle.definitions.specs.Run.{allowances_fit};

use definitions::sizes::{CELL_BYTES, MOST_CELLS, MOST_NESTING};

// How many steps a run may take, how deep its visits may nest, and how many cells may be alive together.
#[derive(Clone, Copy)]
pub struct Allowances {
    pub steps: u32,
    pub nesting: u32,
    pub cells: u32,
}

impl Allowances {
    // Whether the allowances are within their ceilings and the cells are lent: 68 bytes for each.
    pub fn fit(self, lent: usize) -> bool
        ensures { result ≡ allowances_fit self.nesting self.cells lent }
    {
        if self.nesting < 1 || MOST_NESTING < self.nesting || MOST_CELLS < self.cells {
            return false;
        }
        CELL_BYTES * self.cells as usize <= lent
    }
}
