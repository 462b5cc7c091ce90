// The child, case and clause order rules of sheets.
ghost use Rattle.std.specs.Prelude.{◌≡◌, ◌+◌, ◌<◌};
ghost use Rattle.definitions.specs.Lists.{all_of};
ghost use Rattle.definitions.specs.Sizes.{most_nodes};
ghost use Rattle.definitions.specs.Layouts.{nodes};
ghost use Rattle.definitions.specs.References.{children};
ghost use Rattle.definitions.specs.SheetRules.{is_body, clauses_rise, tree_right, tree};
ghost use Rattle.definitions.specs.Refusals.{as_verdict};
ghost use Rattle.definitions.specs.Verdicts.{first_of};
ghost use Rattle.definitions.specs.declared.Layout.TheVariants.{Sheet};
ghost use Rattle.file_records.specs.Index.{Opened};
ghost use Rattle.file_runs.specs.Runs.{RunEndTable, Owners};
ghost use Rattle.sheet_rules.specs.Nodes.{NodeAt, child_right};
ghost use Rattle.sheet_rules.specs.Seen.{TimesOf};

use definitions::refusals::{Reason, Refusal};
use definitions::sheet_kinds;
use definitions::sizes::{Ends, MOST_NODES, Owners, Starts};
use file_layout::layout::{first_node, nodes};
use file_records::records::{indexed, kind};
use file_references::references::{child_inside, children, clause_constructor, clauses};

// Whether node `k` is the body of its function.
pub fn is_body(b: &[u8], starts: &Starts, ends: &Ends, owners: &Owners, k: usize) -> bool
    requires { NodeAt b.now starts.now ends.now owners.now k }
    ensures { result ≡ is_body b.now k }
{
    k + 1 == usize::from(ends[usize::from(owners[k])])
}

// Whether the nodes that a record names are smaller than node `k` and in the same function.
fn children_right(b: &[u8], owners: &Owners, k: usize, rec: &[u8]) -> bool
    requires { (Owners b.now owners.now) × (k < nodes b.now) × (k < most_nodes) }
    ensures { result ≡ all_of (children rec.now) (λ j. child_right b.now rec.now k j) }
{
    let kind = kind(rec);
    let count = children(rec);
    for j in 0..count {
        let c = usize::from(child_inside(rec, kind, j));
        if k <= c {
            return false;
        }
        if owners[c] != owners[k] {
            return false;
        }
    }
    true
}

// Whether the constructors of a case's clauses rise strictly.
fn clauses_rise(rec: &[u8]) -> bool
    ensures { result ≡ clauses_rise rec.now }
{
    for j in 1..clauses(rec) {
        if clause_constructor(rec, j) <= clause_constructor(rec, j - 1) {
            return false;
        }
    }
    true
}

// The child, case and clause order rules of node `k`.
fn tree_right(
    b: &[u8],
    starts: &Starts,
    ends: &Ends,
    owners: &Owners,
    times: &[u8; MOST_NODES],
    k: usize,
) -> bool
    requires { NodeAt b.now starts.now ends.now owners.now k × TimesOf b.now times.now }
    ensures { result ≡ tree_right b.now k }
{
    let rec = indexed(b, starts, first_node(b) + k);
    if !children_right(b, owners, k, rec) {
        return false;
    }
    if is_body(b, starts, ends, owners, k) {
        if kind(rec) == sheet_kinds::CASE {
            return clauses_rise(rec);
        }
        return true;
    }
    if times[k] != 1 {
        return false;
    }
    kind(rec) != sheet_kinds::CASE
}

// The child, case and clause order rules of every node.
pub fn trees(
    b: &[u8],
    starts: &Starts,
    ends: &Ends,
    owners: &Owners,
    times: &[u8; MOST_NODES],
) -> Result<(), Refusal>
    requires { (Opened Sheet b.now starts.now) × RunEndTable Sheet b.now ends.now × Owners b.now owners.now × TimesOf b.now times.now }
    ensures { as_verdict result ≡ first_of (nodes b.now) (tree b.now) }
{
    let first = first_node(b);
    let count = usize::from(nodes(b));
    for k in 0..count {
        if !tree_right(b, starts, ends, owners, times, k) {
            return Err(Refusal {
                reason: Reason::BadTree,
                place: first + k,
            });
        }
    }
    Ok(())
}
