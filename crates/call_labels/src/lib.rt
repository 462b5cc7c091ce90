// The labels of a sheet's calls, and how many labels each function has (document 01, "Translation"; document 02, request 4).
#![tactic(auto)]

ghost use Rattle.std.specs.Prelude.{◌+◌};
ghost use Rattle.definitions.specs.Layouts.{nodes};
ghost use Rattle.call_labels.specs.Tables.{Labels, Counts, Classed, CallToLabel, LabelledOne, LabelAt};

use definitions::sheet_kinds;
use definitions::sizes::{OfFunctions, OfNodes, Starts};
use file_layout::layout::{first_node, nodes};
use file_records::records::{field, indexed, kind};

// Labels the calls, and counts the labels of each function, by the first node with each node's tree.
pub fn label_nodes(
    b: &[u8],
    starts: &Starts,
    classes: &OfNodes,
    labels: &mut OfNodes,
    counts: &mut OfFunctions,
)
    requires { Classed b.now starts.now classes.now × Labels b.now labels.old 0 × Counts b.now counts.old 0 }
    ensures { Labels b.now labels.new (nodes b.now) × Counts b.now counts.new (nodes b.now) }
{
    let count = usize::from(nodes(b));
    for k in 0..count {
        label_node(b, starts, classes, k, labels, counts);
    }
}

// Labels node `k`, where it is a call.
fn label_node(
    b: &[u8],
    starts: &Starts,
    classes: &OfNodes,
    k: usize,
    labels: &mut OfNodes,
    counts: &mut OfFunctions,
)
    requires { LabelAt b.now starts.now classes.now labels.old counts.old k }
    ensures { Labels b.now labels.new (k + 1) × Counts b.now counts.new (k + 1) }
{
    let rec = indexed(b, starts, first_node(b) + k);
    if kind(rec) == sheet_kinds::CALL {
        label_call(
            usize::from(field(rec, 0)),
            usize::from(classes[k]),
            k,
            labels,
            counts,
        );
    }
}

// Labels node `k`, a call of function `f`: like the first call with its tree, or where it is that call by the number of labels of
// that function so far.
fn label_call(f: usize, first: usize, k: usize, labels: &mut OfNodes, counts: &mut OfFunctions)
    requires { CallToLabel f first k counts.old }
    ensures { LabelledOne f first k labels.old counts.old labels.new counts.new }
{
    if first < k {
        labels[k] = labels[first];
    } else {
        labels[k] = counts[f];
        counts[f] += 1;
    }
}
