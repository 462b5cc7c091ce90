// The readings that a set closes: 21.
ghost use Rattle.std.specs.Prelude.{◌≡◌, ◌<◌};
ghost use Rattle.definitions.specs.Sizes.{most_readings};
ghost use Rattle.definitions.specs.Layouts as Layouts;
ghost use Rattle.definitions.specs.Refusals.{as_verdict};
ghost use Rattle.definitions.specs.Hirer.{reading_allowed, node_allowed, closed_verdict};
ghost use Rattle.run.specs.NodeTable.{Readable};

use definitions::refusals::{Reason, Refusal};
use definitions::translation_kinds;
use file_layout::layout::{first_node, nodes};
use run::node_table::{Table, entry, first_in, kind_in};

// Whether reading `i` is in the set.
fn reading_allowed(set: u32, i: u16) -> bool
    requires { i < most_readings }
    ensures { result ≡ reading_allowed set i }
{
    (set >> i) % 2 == 1
}

// Whether node `k` is a reading of the set, or no reading.
fn node_allowed(file: &[u8], table: &Table, set: u32, k: u16) -> bool
    requires { Readable file.now table.now × (k < Layouts.nodes file.now) }
    ensures { result ≡ node_allowed file.now set k }
{
    let x = entry(table, k);
    if kind_in(x) != translation_kinds::READING {
        return true;
    }
    reading_allowed(set, first_in(x))
}

// 21 at the record of the first node that is a reading outside the set.
pub(crate) fn check_readings(file: &[u8], table: &Table, set: u32) -> Result<(), Refusal>
    requires { Readable file.now table.now }
    ensures { as_verdict result ≡ closed_verdict file.now set }
{
    let first = first_node(file);
    let count = nodes(file);
    for k in 0..count {
        if !node_allowed(file, table, set, k) {
            return Err(Refusal {
                reason: Reason::ClosedReading,
                place: first + usize::from(k),
            });
        }
    }
    Ok(())
}
