// The records of nodes: node numbers stay.
ghost use Rattle.std.specs.Prelude.{◌≡◌, ◌<◌};
ghost use Rattle.definitions.specs.Lists.{joined};
ghost use Rattle.definitions.specs.Layouts.{nodes, owner_of};
ghost use Rattle.definitions.specs.SheetNodes.{scrutinee_of};
ghost use Rattle.definitions.specs.Trees.{equal_trees};
ghost use Rattle.definitions.specs.Translate.{formal_of, node_words};
ghost use Rattle.definitions.specs.declared.Layout.TheVariants.{Sheet};
ghost use Rattle.translation_words.specs.Writing.{WroteWords};
ghost use Rattle.tree_classes.specs.Classes.{ReadTables};
ghost use Rattle.translator.specs.Tables.{NodeTables, NodeRead, OwnerFormals};

use crate::kinds::{CALL, FORMAL, NUMBER, SELECT};
use crate::tables::Sums;
use definitions::sheet_kinds;
use definitions::sizes::{Ends, OfNodes, Owners, Starts};
use file_layout::layout::{first_node, nodes};
use file_records::records::{field, indexed, kind};
use translation_words::{put_copy, put_one, put_two};

// The scrutinee of the case that is the body of node `k`'s function.
fn scrutinee(b: &[u8], starts: &Starts, ends: &Ends, owners: &Owners, k: usize) -> u16
    requires { ReadTables b.now starts.now ends.now owners.now × (k < nodes b.now) }
    ensures { result ≡ scrutinee_of b.now k }
{
    let end = usize::from(ends[usize::from(owners[k])]);
    field(indexed(b, starts, first_node(b) + (end - 1)), 0)
}

// The formal of the parameter at position `i` of the function that owns node `k`.
fn formal(b: &[u8], owners: &Owners, formals: &Sums, k: usize, i: u16) -> usize
    requires { OwnerFormals b.now owners.now formals.now k }
    ensures { result ≡ formal_of b.now (owner_of Sheet b.now k) i }
{
    usize::from(formals[usize::from(owners[k])]) + usize::from(i)
}

// Writes node `k`, whose record is `rec`.
fn put_read(
    b: &[u8],
    starts: &Starts,
    ends: &Ends,
    owners: &Owners,
    labels: &OfNodes,
    formals: &Sums,
    rec: &[u8],
    k: usize,
    out: &mut [u8],
    at: usize,
) -> usize
    requires { NodeRead b.now starts.now ends.now owners.now labels.now formals.now rec.now k }
    ensures { WroteWords out.old at (node_words (equal_trees b.now) b.now k) result out.new }
{
    let value = field(rec, 0);
    match kind(rec) {
        sheet_kinds::NUMBER => put_two(
            out,
            at,
            NUMBER,
            usize::from(value),
            usize::from(field(rec, 1)),
        ),
        sheet_kinds::PARAMETER => put_one(out, at, FORMAL, formal(b, owners, formals, k, value)),
        sheet_kinds::PATTERN_VARIABLE => {
            let tested = scrutinee(b, starts, ends, owners, k);
            put_two(out, at, SELECT, usize::from(tested), usize::from(value) + 1)
        }
        sheet_kinds::CALL => put_two(out, at, CALL, usize::from(labels[k]), usize::from(value)),
        _ => put_copy(out, at, rec),
    }
}

// Writes node `k`.
fn put_node(
    b: &[u8],
    starts: &Starts,
    ends: &Ends,
    owners: &Owners,
    labels: &OfNodes,
    formals: &Sums,
    k: usize,
    out: &mut [u8],
    at: usize,
) -> usize
    requires { NodeTables b.now starts.now ends.now owners.now labels.now formals.now × (k < nodes b.now) }
    ensures { WroteWords out.old at (node_words (equal_trees b.now) b.now k) result out.new }
{
    put_read(
        b,
        starts,
        ends,
        owners,
        labels,
        formals,
        indexed(b, starts, first_node(b) + k),
        k,
        out,
        at,
    )
}

// Writes every node.
pub(crate) fn put_nodes(
    b: &[u8],
    starts: &Starts,
    ends: &Ends,
    owners: &Owners,
    labels: &OfNodes,
    formals: &Sums,
    out: &mut [u8],
    at: usize,
) -> usize
    requires { NodeTables b.now starts.now ends.now owners.now labels.now formals.now }
    ensures { WroteWords out.old at (joined (nodes b.now) (node_words (equal_trees b.now) b.now)) result out.new }
{
    let count = usize::from(nodes(b));
    let mut next = at;
    for k in 0..count {
        next = put_node(b, starts, ends, owners, labels, formals, k, out, next);
    }
    next
}
