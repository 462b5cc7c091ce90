// The numbering of trees by their keys. Nodes with one bucket are chained: `lasts` has one above the last node of each bucket, and
// `earlier` one above the node before each in its bucket; 0 is none.
ghost use Rattle.std.specs.Prelude.{◌≡◌, ◌+◌, length};
ghost use Rattle.definitions.specs.Sizes.{most_nodes};
ghost use Rattle.definitions.specs.Layouts.{nodes};
ghost use Rattle.tree_classes.specs.Keys.{entry_of, equal_keys};
ghost use Rattle.tree_classes.specs.Classes.{AcceptedSheet, Numbered};
ghost use Rattle.tree_classes.specs.Chains.{Numbering, NodeToNumber, TwoNodes, Chain, FoundSame};

use crate::keys::{BUCKETS, bucket, same_values};
use definitions::sizes::{MOST_NODES, OfNodes, Starts};
use file_layout::layout::{first_node, nodes};
use file_records::records::indexed;

// One above the last node of each bucket.
type Lasts = [u16; BUCKETS];

// Whether nodes `j` and `k`, whose record is `rec`, have one key.
#[tactic(auto, unfolding(crate::specs::Keys::equal_keys))]
fn same_key(
    b: &[u8],
    starts: &Starts,
    places: &OfNodes,
    classes: &OfNodes,
    rec: &[u8],
    j: usize,
    k: usize,
) -> bool
    requires { TwoNodes b.now starts.now classes.now rec.now j k }
    ensures { result ≡ equal_keys (entry_of classes.now) (entry_of places.now) b.now j k }
{
    places[j] == places[k] && same_values(indexed(b, starts, first_node(b) + j), rec, classes)
}

// The last node before node `k` with the same key, among those of the chain from `last` on.
fn find_same(
    b: &[u8],
    starts: &Starts,
    places: &OfNodes,
    classes: &OfNodes,
    earlier: &OfNodes,
    rec: &[u8],
    k: usize,
    last: usize,
) -> Option<usize>
    requires { Chain b.now starts.now places.now classes.now earlier.now rec.now k last }
    ensures { FoundSame b.now places.now classes.now k result }
{
    let mut next = last;
    // A chain is followed link by link, so there is no range to go through.
    while 0 < next {
        let j = next - 1;
        if same_key(b, starts, places, classes, rec, j, k) {
            return Some(j);
        }
        next = usize::from(earlier[j]);
    }
    None
}

// Numbers node `k`.
fn number_node(
    b: &[u8],
    starts: &Starts,
    places: &OfNodes,
    k: usize,
    classes: &mut OfNodes,
    lasts: &mut Lasts,
    earlier: &mut OfNodes,
)
    requires { NodeToNumber b.now starts.now places.now classes.old lasts.old earlier.old k }
    ensures { Numbering b.now places.now classes.new lasts.new earlier.new (k + 1) }
{
    let rec = indexed(b, starts, first_node(b) + k);
    let h = bucket(rec, places[k], classes);
    let last = lasts[h];
    let found = find_same(
        b,
        starts,
        places,
        classes,
        earlier,
        rec,
        k,
        usize::from(last),
    );
    classes[k] = match found {
        Some(j) => classes[j],
        None => k as u16,
    };
    earlier[k] = last;
    lasts[h] = (k + 1) as u16;
}

// Numbers the nodes: nodes with equal keys get the number of the first of them.
pub(crate) fn number_nodes(b: &[u8], starts: &Starts, places: &OfNodes, classes: &mut OfNodes)
    requires { AcceptedSheet b.now starts.now × (length classes.old ≡ most_nodes) }
    ensures { Numbered b.now (entry_of places.now) classes.new (nodes b.now) }
{
    let count = usize::from(nodes(b));
    let mut lasts = [0u16; BUCKETS];
    let mut earlier = [0u16; MOST_NODES];
    for k in 0..count {
        number_node(b, starts, places, k, classes, &mut lasts, &mut earlier);
    }
}
