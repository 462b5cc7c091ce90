// The file_runs crate: the runs of nodes that functions own (document 01, "Files"): where each ends, and which function owns a node.
#![tactic(auto)]

ghost use Rattle.file_records.specs.Index.{Opened};
ghost use Rattle.file_runs.specs.Runs.{RunEndTable, Owners, owner_after};
ghost use Rattle.std.specs.Prelude.{◌<◌, ◌≡◌, length};
ghost use Rattle.definitions.specs.Shape.{file_shape};
ghost use Rattle.definitions.specs.declared.Layout.TheVariants.{Sheet};
ghost use Rattle.definitions.specs.Verdict.{Accepted};
ghost use Rattle.definitions.specs.Sizes.{most_functions, most_nodes};

use definitions::Layout;
use definitions::sizes::{Ends, Owners, Starts};
use file_layout::layout::{count_field, first_function, functions, nodes};
use file_records::records::{field, indexed};

// Fills the table of the ends of runs.
pub fn run_ends(y: Layout, b: &[u8], starts: &Starts, ends: &mut Ends)
    requires { Opened y b.now starts.now × (length ends.old ≡ most_functions) }
    ensures { RunEndTable y b.now ends.new }
{
    let first = first_function(y, b);
    let count = functions(b) as usize;
    let j = count_field(y);
    let mut total: usize = 0;
    for f in 0..count {
        total += usize::from(field(indexed(b, starts, first + f), j));
        ends[f] = total as u16;
    }
}

// The owner of node `k` from that of the node before it: the next function where the run has ended.
fn owner_after(ends: &Ends, f: usize, k: usize) -> usize
    requires { f < most_functions }
    ensures { result ≡ owner_after ends.now f k }
{
    if usize::from(ends[f]) <= k { f + 1 } else { f }
}

// Fills the table of owners of a sheet's nodes.
pub fn run_owners(b: &[u8], ends: &Ends, owners: &mut Owners)
    requires { (file_shape Sheet b.now ≡ Accepted) × RunEndTable Sheet b.now ends.now × (length owners.old ≡ most_nodes) }
    ensures { Owners b.now owners.new }
{
    let count = nodes(b) as usize;
    let mut f: usize = 0;
    for k in 0..count {
        f = owner_after(ends, f, k);
        owners[k] = f as u8;
    }
}
