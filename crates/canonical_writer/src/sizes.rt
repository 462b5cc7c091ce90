// The table of sizes: how many nodes are in the tree of each node.
ghost use Rattle.std.specs.Prelude.{◌≡◌};
ghost use Rattle.definitions.specs.Layouts.{nodes};
ghost use Rattle.tree_classes.specs.Classes.{AcceptedSheet};
ghost use Rattle.canonical_writer.specs.Sizes.{tree_size, Sizes, SizeAt};

use definitions::sizes::{OfNodes, Starts};
use file_layout::layout::{first_node, nodes};
use file_records::records::{field_count, field_inside, indexed, kind};
use file_references::references::names_node;

// The size of node `k`, by those of the nodes before it.
fn tree_size(b: &[u8], starts: &Starts, sizes: &OfNodes, k: usize) -> u16
    requires { SizeAt b.now starts.now sizes.now k }
    ensures { result ≡ tree_size b.now k }
{
    let rec = indexed(b, starts, first_node(b) + k);
    let node_kind = kind(rec);
    let count = field_count(rec);
    let mut size: u16 = 1;
    for i in 0..count {
        if names_node(node_kind, i) {
            size += sizes[usize::from(field_inside(rec, i))];
        }
    }
    size
}

// Fills the table of sizes: a node comes after those in its fields.
pub(crate) fn fill_sizes(b: &[u8], starts: &Starts, sizes: &mut OfNodes)
    requires { AcceptedSheet b.now starts.now × Sizes b.now sizes.old 0 }
    ensures { Sizes b.now sizes.new (nodes b.now) }
{
    let count = usize::from(nodes(b));
    for k in 0..count {
        let size = tree_size(b, starts, sizes, k);
        sizes[k] = size;
    }
}
