// The key of a node: its kind, its place, and a number for each field, which is the class of the node that the field names, or
// the field itself. Equal trees have equal keys.
ghost use Rattle.std.specs.Prelude.{◌≡◌, ◌<◌, length};
ghost use Rattle.definitions.specs.Sizes.{most_nodes};
ghost use Rattle.definitions.specs.Records.{kind_of, field_count};
ghost use Rattle.tree_classes.specs.Keys.{entry_of, value_of, bucket_of, same_values, buckets};

use definitions::sizes::OfNodes;
use file_records::records::{field_count, field_inside, kind};
use file_references::references::names_node;

// How many buckets there are, and what each number of a key counts in the place of the one after it.
pub const BUCKETS: usize = 1024;

const WEIGHT: usize = 33;

// The entry of a table for node `n`, which a record names; 0 past the table.
pub(crate) fn entry(table: &OfNodes, n: u16) -> u16
    requires { length table.now ≡ most_nodes }
    ensures { result ≡ entry_of table.now n }
{
    table.get(usize::from(n)).copied().unwrap_or(0)
}

// The number for field `i` of a record of kind `kind`.
#[tactic(auto, unfolding(crate::specs::Keys::value_of))]
fn value(rec: &[u8], kind: u16, i: usize, classes: &OfNodes) -> u16
    requires { (i < field_count rec.now) × (kind ≡ kind_of rec.now) × (length classes.now ≡ most_nodes) }
    ensures { result ≡ value_of (entry_of classes.now) rec.now i }
{
    let x = field_inside(rec, i);
    if names_node(kind, i) {
        entry(classes, x)
    } else {
        x
    }
}

// Whether two records have the same kind and the same numbers for their fields.
pub(crate) fn same_values(x: &[u8], y: &[u8], classes: &OfNodes) -> bool
    requires { length classes.now ≡ most_nodes }
    ensures { result ≡ same_values (entry_of classes.now) x.now y.now }
{
    let node_kind = kind(x);
    let count = field_count(x);
    node_kind == kind(y)
        && count == field_count(y)
        && (0..count).all(|i| value(x, node_kind, i, classes) == value(y, node_kind, i, classes))
}

// The bucket of a key.
#[tactic(auto, unfolding(crate::specs::Keys::bucket_of, crate::specs::Keys::bucket_after))]
pub(crate) fn bucket(rec: &[u8], place: u16, classes: &OfNodes) -> usize
    requires { length classes.now ≡ most_nodes }
    ensures { (result ≡ bucket_of (entry_of classes.now) rec.now place) × (result < buckets) }
{
    let node_kind = kind(rec);
    let count = field_count(rec);
    let mut h = (usize::from(node_kind) + usize::from(place)) % BUCKETS;
    for j in 0..count {
        h = (h * WEIGHT + usize::from(value(rec, node_kind, j, classes))) % BUCKETS;
    }
    h
}
