// The class of each node's tree: the first node with an equal tree (document 02, request 4).
#![tactic(auto)]

ghost use Rattle.std.specs.Prelude.{◌≡◌, length};
ghost use Rattle.definitions.specs.Sizes.{most_nodes};
ghost use Rattle.tree_classes.specs.Classes.{ReadTables, FirstNodes};

mod keys;
mod numbering;
mod places;

use crate::numbering::number_nodes;
use crate::places::{class_scrutinees, place_nodes};
use definitions::sizes::{Ends, MOST_FUNCTIONS, MOST_NODES, OfNodes, Owners, Starts};

// Finds the class of each node. The first numbering is right for scrutinees, whose trees hold no pattern variable; with their classes
// as the places of pattern variables the second is right for all.
pub fn class_nodes(b: &[u8], starts: &Starts, ends: &Ends, owners: &Owners, classes: &mut OfNodes)
    requires { ReadTables b.now starts.now ends.now owners.now × (length classes.old ≡ most_nodes) }
    ensures { FirstNodes b.now classes.new }
{
    let mut scrutinees = [0u16; MOST_FUNCTIONS];
    let mut places = [0u16; MOST_NODES];
    place_nodes(b, starts, owners, &scrutinees, &mut places);
    number_nodes(b, starts, &places, classes);
    class_scrutinees(b, starts, ends, classes, &mut scrutinees);
    place_nodes(b, starts, owners, &scrutinees, &mut places);
    number_nodes(b, starts, &places, classes);
}
