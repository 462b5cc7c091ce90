// What a run looks up: a node's record, a body, a field that names a node, a clause, a cell. Each
// in constant time, but for the clause.
ghost use Rattle.std.specs.Prelude.{◌≡◌, cond, ltb, ◌+◌, ◌*◌, ◌/◌, ◌%◌, ◌≤◌, ◌<◌, length};
ghost use Rattle.std.proofs.Math.Option.{none, some};
ghost use Rattle.definitions.specs.Bytes.{word};
ghost use Rattle.definitions.specs.Operators.{is_zero};
ghost use Rattle.definitions.specs.Layouts.{functions, nodes, due, body_of, node_record};
ghost use Rattle.definitions.specs.NodeFields.{chosen};
ghost use Rattle.definitions.specs.Checks.{translation_verdict};
ghost use Rattle.definitions.specs.declared.Layout.TheVariants.{Translation};
ghost use Rattle.definitions.specs.Verdict.{Accepted};
ghost use Rattle.file_records.specs.Index.{Indexed};
ghost use Rattle.definitions.specs.Listing.{label_at, previous_at};
ghost use Rattle.run.specs.States.{found_of, found_in, clauses_at, Ready};

use cells::cell::cell_at;
use definitions::Layout;
use definitions::sizes::{Ends, Starts};
use file_fields::bytes::field_of;
use file_layout::layout::{first_function, first_node};
use file_records::records::{field, indexed, record};

// The record of node `k`.
pub(crate) fn node_record<'a>(b: &'a [u8], starts: &Starts, k: u16) -> &'a [u8]
    requires { Indexed b.now starts.now (due b.now) × (k < nodes b.now) }
    ensures { result.now ≡ node_record b.now k }
{
    indexed(b, starts, first_node(b) + usize::from(k))
}

// The body of function `f`.
pub(crate) fn body(b: &[u8], starts: &Starts, ends: &Ends, f: u16) -> u16
    requires { Ready b.now starts.now ends.now × (f < functions b.now) }
    ensures { result ≡ body_of Translation b.now f }
{
    let end = usize::from(ends[usize::from(f)]);
    (end - 1) as u16
}

// The body of function 0.
pub(crate) fn first_body(b: &[u8]) -> u16
    requires { translation_verdict b.now ≡ Accepted }
    ensures { result ≡ body_of Translation b.now 0 }
{
    field(record(b, first_function(Layout::Translation, b)), 0) - 1
}

// The node that field `i` of a record names, if there is one, by where the record starts and how many fields it has. No test
// of the file's end is needed.
pub(crate) fn listed(b: &[u8], place: u16, count: u16, i: u16) -> Option<u16>
    requires { place + 4 + 2 * count ≤ length b.now }
    ensures { found_of result ≡ cond (ltb i count) (some (word b.now (place + 4 + 2 * i))) none }
{
    if i < count {
        let at = usize::from(place) + 4 + 2 * usize::from(i);
        Some(field_of(b[at], b[at + 1]))
    } else {
        None
    }
}

// The place in the file of the node of the first clause with a tag, 0 where there is none: of a case's record, by where it starts
// and how many fields it has.
pub(crate) fn clause(b: &[u8], place: u16, count: u16, tag: u16) -> usize
    requires { place + 6 + 4 * (count / 2) ≤ length b.now }
    ensures { (found_in b.now result ≡ chosen (clauses_at b.now place count) tag) × (result + 2 ≤ length b.now) }
{
    let count = usize::from(count) / 2;
    for j in 0..count {
        let at = usize::from(place) + 6 + 4 * j;
        if field_of(b[at], b[at + 1]) == tag {
            return at + 2;
        }
    }
    0
}

// The node that stands at a place, none at place 0.
pub(crate) fn found_at(b: &[u8], place: usize) -> Option<u16>
    requires { place + 2 ≤ length b.now }
    ensures { found_of result ≡ found_in b.now place }
{
    if place == 0 {
        None
    } else {
        Some(field_of(b[place], b[place + 1]))
    }
}

// The node that an if takes for a number: the second where it is not zero, else the third.
pub(crate) fn branch(z: i32, second: u16, third: u16) -> u16
    ensures { result ≡ cond (is_zero z) third second }
{
    if z == 0 { third } else { second }
}

// The label of cell `c` in the lower 16 bits, and the number of the cell before it above them: a read of cells that are lent to be
// written too.
pub(crate) fn cell_in(cells: &mut [u8], c: u16) -> u32
    ensures { (result % 65536 ≡ label_at cells.old c) × (result / 65536 ≡ previous_at cells.old c) × (cells.new ≡ cells.old) }
{
    cell_at(cells, c)
}
