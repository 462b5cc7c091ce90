// The tables of children of a sheet: how often each node is a child, and of which node last.
ghost use Rattle.std.specs.Prelude.{◌≡◌, ◌+◌, ◌<◌, get_or, set};
ghost use Rattle.definitions.specs.Sizes.{most_nodes};
ghost use Rattle.definitions.specs.Layouts.{nodes};
ghost use Rattle.definitions.specs.References.{children};
ghost use Rattle.definitions.specs.declared.Layout.TheVariants.{Sheet};
ghost use Rattle.file_records.specs.Index.{Opened};
ghost use Rattle.sheet_rules.specs.Seen.{ChildTables, NotedOne, Noted, Seen, once};

use definitions::sizes::{MOST_NODES, Starts};
use file_layout::layout::{first_node, nodes};
use file_records::records::{indexed, kind};
use file_references::references::{child_inside, children};

// Once more: once, or more than once.
fn once(n: u8) -> u8
    ensures { result ≡ once n }
{
    if n < 1 { 1 } else { 2 }
}

// Notes node `c` as a child of node `p`.
fn note(c: usize, p: u16, times: &mut [u8; MOST_NODES], parents: &mut [u16; MOST_NODES])
    requires { c < most_nodes }
    ensures { (times.new ≡ set times.old c (once (get_or times.old c 0))) × (parents.new ≡ set parents.old c p) }
{
    times[c] = once(times[c]);
    parents[c] = p;
}

// Notes a node, where the tables have an entry for it.
fn note_child(c: usize, p: u16, times: &mut [u8; MOST_NODES], parents: &mut [u16; MOST_NODES])
    ensures { NotedOne c p times.old parents.old times.new parents.new }
{
    if c < MOST_NODES {
        note(c, p, times, parents);
    }
}

// Notes the nodes that the record of node `p` names.
fn note_children(rec: &[u8], p: u16, times: &mut [u8; MOST_NODES], parents: &mut [u16; MOST_NODES])
    requires { ChildTables times.old parents.old }
    ensures { Noted rec.now p (children rec.now) times.old parents.old times.new parents.new }
{
    let kind = kind(rec);
    let count = children(rec);
    for j in 0..count {
        note_child(usize::from(child_inside(rec, kind, j)), p, times, parents);
    }
}

// Notes the nodes that every node of a sheet names.
pub fn note_sheet(
    b: &[u8],
    starts: &Starts,
    times: &mut [u8; MOST_NODES],
    parents: &mut [u16; MOST_NODES],
)
    requires { Opened Sheet b.now starts.now × Seen b.now 0 times.old parents.old }
    ensures { Seen b.now (nodes b.now) times.new parents.new }
{
    let first = first_node(b);
    let count = nodes(b);
    for p in 0..count {
        note_children(
            indexed(b, starts, first + usize::from(p)),
            p,
            times,
            parents,
        );
    }
}
