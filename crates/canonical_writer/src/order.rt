// The table of order: which node of the sheet each node of the canonical form is. The root of a tree is entered after as many places
// as the nodes in its fields take.
ghost use Rattle.std.specs.Prelude.{◌+◌};
ghost use Rattle.definitions.specs.Layouts.{nodes};
ghost use Rattle.canonical_writer.specs.Order.{OrderFrom, Ordered, EnterBodies, EnterAt, FillOrder};

use definitions::sizes::{Ends, OfNodes, Starts};
use file_layout::layout::{first_node, functions, nodes};
use file_records::records::{field_count, field_inside, indexed, kind};
use file_references::references::names_node;

// Enters the bodies, by function.
#[tactic(auto, using(crate::proofs::BodyOrder::function_few, crate::proofs::BodyOrder::body_few, crate::proofs::BodyOrder::body_step))]
fn enter_bodies(b: &[u8], ends: &Ends, sizes: &OfNodes, order: &mut OfNodes)
    requires { EnterBodies b.now ends.now sizes.now order.old }
    ensures { OrderFrom b.now order.new (nodes b.now) }
{
    let count = usize::from(functions(b));
    let mut start: usize = 0;
    for f in 0..count {
        let body = ends[f] - 1;
        start += usize::from(sizes[usize::from(body)]);
        order[start - 1] = body;
    }
}

// Enters the children of the node that gets number `q`, left to right.
#[tactic(auto, using(crate::proofs::Passing::child_step))]
fn enter_children(b: &[u8], starts: &Starts, sizes: &OfNodes, q: usize, order: &mut OfNodes)
    requires { EnterAt b.now starts.now sizes.now order.old q }
    ensures { OrderFrom b.now order.new q }
{
    let k = usize::from(order[q]);
    let rec = indexed(b, starts, first_node(b) + k);
    let node_kind = kind(rec);
    let count = field_count(rec);
    let mut start = q + 1 - usize::from(sizes[k]);
    for i in 0..count {
        if names_node(node_kind, i) {
            let x = field_inside(rec, i);
            start += usize::from(sizes[usize::from(x)]);
            order[start - 1] = x;
        }
    }
}

// Fills the table of order, from the last node on: a node comes after those in its fields.
pub(crate) fn fill_order(
    b: &[u8],
    starts: &Starts,
    ends: &Ends,
    sizes: &OfNodes,
    order: &mut OfNodes,
)
    requires { FillOrder b.now starts.now ends.now sizes.now order.old }
    ensures { Ordered b.now order.new }
{
    enter_bodies(b, ends, sizes, order);
    for q in (0..usize::from(nodes(b))).rev() {
        enter_children(b, starts, sizes, q, order);
    }
}
