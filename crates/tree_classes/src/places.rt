// The place of a node, which is what it counts as besides its fields: of a parameter its function, of a pattern variable the number of
// its function's scrutinee, of any other node 0.
ghost use Rattle.std.specs.Prelude.{◌≡◌, ◌+◌, ◌<◌, length};
ghost use Rattle.definitions.specs.Sizes.{most_functions, most_nodes};
ghost use Rattle.definitions.specs.Layouts.{functions, nodes};
ghost use Rattle.tree_classes.specs.Keys.{entry_of};
ghost use Rattle.tree_classes.specs.Classes.{OwnedSheet, EndedSheet};
ghost use Rattle.tree_classes.specs.Places.{place_of, Placed, ScrutineeClasses};

use crate::keys::entry;
use definitions::sheet_kinds;
use definitions::sizes::{Ends, OfFunctions, OfNodes, Owners, Starts};
use file_layout::layout::{first_node, functions, nodes};
use file_records::records::{field, indexed, kind};

// The place of a node of kind `kind` in function `owner`.
#[tactic(auto, unfolding(crate::specs::Places::place_of))]
fn place(kind: u16, owner: u8, scrutinees: &OfFunctions) -> u16
    requires { owner < most_functions }
    ensures { result ≡ place_of (entry_of scrutinees.now) kind owner }
{
    match kind {
        sheet_kinds::PARAMETER => u16::from(owner),
        sheet_kinds::PATTERN_VARIABLE => scrutinees[usize::from(owner)],
        _ => 0,
    }
}

// Fills the table of places.
pub(crate) fn place_nodes(
    b: &[u8],
    starts: &Starts,
    owners: &Owners,
    scrutinees: &OfFunctions,
    places: &mut OfNodes,
)
    requires { OwnedSheet b.now starts.now owners.now × (length places.old ≡ most_nodes) }
    ensures { Placed b.now (entry_of scrutinees.now) places.new (nodes b.now) }
{
    let first = first_node(b);
    let count = usize::from(nodes(b));
    for k in 0..count {
        places[k] = place(kind(indexed(b, starts, first + k)), owners[k], scrutinees);
    }
}

// Fills the table of the scrutinees' classes: of each function the class of the node that field 0 of its body names, which is the
// scrutinee where the body is a case.
pub(crate) fn class_scrutinees(
    b: &[u8],
    starts: &Starts,
    ends: &Ends,
    classes: &OfNodes,
    scrutinees: &mut OfFunctions,
)
    requires { EndedSheet b.now starts.now ends.now × (length classes.now ≡ most_nodes) × (length scrutinees.old ≡ most_functions) }
    ensures { ScrutineeClasses b.now (entry_of classes.now) scrutinees.new (functions b.now) }
{
    let first = first_node(b);
    let count = usize::from(functions(b));
    for f in 0..count {
        let body = usize::from(ends[f]) - 1;
        scrutinees[f] = entry(classes, field(indexed(b, starts, first + body), 0));
    }
}
