// The canonical form, by the tables of sizes and of order: the sections as they are, then the nodes with their new numbers.
ghost use Rattle.std.specs.Prelude.{◌≡◌, ◌≤◌, length, take};
ghost use Rattle.std.proofs.lemmas.List.Edits.{sets};
ghost use Rattle.definitions.specs.CanonicalSheet.{fields_of, bodies, field_words, tree_words};
ghost use Rattle.translation_words.specs.Writing.{WroteWords};
ghost use Rattle.canonical_writer.specs.Order.{entry_at, first_number, numbered_words};
ghost use Rattle.canonical_writer.specs.Writing.{PutFields, PutNodes, PutAt, Write, WroteCanonical};

use definitions::sizes::{OfNodes, Starts};
use file_layout::layout::{first_node, nodes};
use file_records::records::{field_count, field_inside, indexed, kind, start_in};
use file_references::references::names_node;
use translation_words::{put, put_start};

// Copies the first `end` bytes, by a loop: with std's `copy_from_slice` the archive would need `memmove`.
fn copy(b: &[u8], end: usize, out: &mut [u8])
    requires { (end ≤ length b.now) × (length b.now ≤ length out.old) }
    ensures { out.new ≡ sets out.old 0 (take end b.now) }
{
    for i in 0..end {
        out[i] = b[i];
    }
}

// Writes the fields of node `k`, which gets number `q` and has the record `rec`: a field that names a node names its new number.
#[tactic(auto, using(crate::proofs::Passing::child_step))]
fn put_fields(
    b: &[u8],
    rec: &[u8],
    sizes: &OfNodes,
    k: usize,
    q: usize,
    out: &mut [u8],
    at: usize,
) -> usize
    requires { PutFields b.now rec.now sizes.now k q }
    ensures { WroteWords out.old at (field_words (first_number b.now q k) (fields_of b.now k)) result out.new }
{
    let node_kind = kind(rec);
    let count = field_count(rec);
    let mut start = q + 1 - usize::from(sizes[k]);
    let mut next = at;
    for i in 0..count {
        let old = usize::from(field_inside(rec, i));
        let new = if names_node(node_kind, i) {
            start += usize::from(sizes[old]);
            start - 1
        } else {
            old
        };
        next = put(out, next, new);
    }
    next
}

// Writes the node that gets number `q`.
fn put_node(
    b: &[u8],
    starts: &Starts,
    sizes: &OfNodes,
    order: &OfNodes,
    q: usize,
    out: &mut [u8],
    at: usize,
) -> usize
    requires { PutAt b.now starts.now sizes.now order.now q }
    ensures { WroteWords out.old at (numbered_words b.now q (entry_at order.now q)) result out.new }
{
    let k = usize::from(order[q]);
    let rec = indexed(b, starts, first_node(b) + k);
    let fields = put_start(out, at, usize::from(kind(rec)), field_count(rec));
    put_fields(b, rec, sizes, k, q, out, fields)
}

// Writes every node.
fn put_nodes(
    b: &[u8],
    starts: &Starts,
    sizes: &OfNodes,
    order: &OfNodes,
    out: &mut [u8],
    at: usize,
) -> usize
    requires { PutNodes b.now starts.now sizes.now order.now }
    ensures { WroteWords out.old at (tree_words 0 (bodies b.now)) result out.new }
{
    let count = usize::from(nodes(b));
    let mut next = at;
    for q in 0..count {
        next = put_node(b, starts, sizes, order, q, out, next);
    }
    next
}

// Writes the canonical form from the output's start on; the answer is its length.
pub(crate) fn write(
    b: &[u8],
    starts: &Starts,
    sizes: &OfNodes,
    order: &OfNodes,
    out: &mut [u8],
) -> usize
    requires { Write b.now starts.now sizes.now order.now out.old }
    ensures { WroteCanonical b.now out.old result out.new }
{
    let end = start_in(starts, first_node(b));
    copy(b, end, out);
    put_nodes(b, starts, sizes, order, out, end)
}
