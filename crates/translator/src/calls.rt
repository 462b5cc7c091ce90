// The first call with each label, in order of function and label, and where those of each function start.
ghost use Rattle.std.specs.Prelude.{◌≡◌, ◌+◌};
ghost use Rattle.definitions.specs.Layouts.{functions, nodes};
ghost use Rattle.definitions.specs.Shape.{file_shape};
ghost use Rattle.definitions.specs.declared.Layout.TheVariants.{Sheet};
ghost use Rattle.definitions.specs.Verdict.{Accepted};
ghost use Rattle.call_labels.specs.Tables.{label_count, Counts};
ghost use Rattle.translator.specs.Tables.{Sums, CallOrder, Placing, PlaceAt};

use crate::tables::{Sums, sums};
use definitions::sheet_kinds;
use definitions::sizes::{OfFunctions, OfNodes, Starts};
use file_layout::layout::{first_node, functions, nodes};
use file_records::records::{field, indexed, kind};

// Where the labels of each function start.
pub(crate) fn first_calls(b: &[u8], counts: &OfFunctions) -> Sums
    requires { (file_shape Sheet b.now ≡ Accepted) × Counts b.now counts.now (nodes b.now) }
    ensures { Sums (functions b.now) (label_count b.now) result }
{
    sums(usize::from(functions(b)), |f| counts[f])
}

// Puts node `k`, where it is the first call with its label, in its place.
fn place_node(
    b: &[u8],
    starts: &Starts,
    classes: &OfNodes,
    labels: &OfNodes,
    firsts: &Sums,
    k: usize,
    order: &mut OfNodes,
)
    requires { PlaceAt b.now starts.now classes.now labels.now firsts.now order.old k }
    ensures { CallOrder b.now order.new (k + 1) }
{
    if usize::from(classes[k]) < k {
        return;
    }
    let rec = indexed(b, starts, first_node(b) + k);
    if kind(rec) == sheet_kinds::CALL {
        let f = usize::from(field(rec, 0));
        order[usize::from(firsts[f]) + usize::from(labels[k])] = k as u16;
    }
}

// Puts the first calls in order of function and label.
pub(crate) fn order_calls(
    b: &[u8],
    starts: &Starts,
    classes: &OfNodes,
    labels: &OfNodes,
    firsts: &Sums,
    order: &mut OfNodes,
)
    requires { Placing b.now starts.now classes.now labels.now firsts.now × CallOrder b.now order.old 0 }
    ensures { CallOrder b.now order.new (nodes b.now) }
{
    let count = usize::from(nodes(b));
    for k in 0..count {
        place_node(b, starts, classes, labels, firsts, k, order);
    }
}
