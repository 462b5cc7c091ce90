// The pattern rules of sheets.
ghost use Rattle.std.specs.Prelude.{◌≡◌, ◌+◌, ◌<◌, length};
ghost use Rattle.definitions.specs.Sizes.{most_nodes};
ghost use Rattle.definitions.specs.Layouts.{nodes};
ghost use Rattle.definitions.specs.References.{clauses};
ghost use Rattle.definitions.specs.SheetRules.{clause_of, clause_within, pattern_right, pattern};
ghost use Rattle.definitions.specs.Verdicts.{first_of};
ghost use Rattle.definitions.specs.declared.Layout.TheVariants.{Sheet};
ghost use Rattle.definitions.specs.Refusals.{as_verdict};
ghost use Rattle.file_records.specs.Index.{Opened};
ghost use Rattle.sheet_rules.specs.Nodes.{NodeAt};
ghost use Rattle.sheet_rules.specs.Seen.{ParentsOf, TreesAccepted};
ghost use Rattle.sheet_rules.specs.Clauses.{entry_of, ClausesOf, ClausesFrom, Ruled};

use crate::tree::is_body;
use definitions::refusals::{Reason, Refusal};
use definitions::sheet_kinds;
use definitions::sizes::{Ends, MOST_NODES, Owners, Starts};
use file_layout::layout::{first_node, nodes};
use file_records::declared_counts::arity;
use file_records::records::{field, indexed, kind};
use file_references::references::{child, clause_constructor, clauses};

// One more than the constructor of the clause of a case's record that node `k` is, 0 where it is none.
fn clause_of(rec: &[u8], k: usize) -> u32
    ensures { result ≡ entry_of (clause_of rec.now (clauses rec.now) k) }
{
    for j in (0..clauses(rec)).rev() {
        if usize::from(child(rec, j + 1)) == k {
            return 1 + u32::from(clause_constructor(rec, j));
        }
    }
    0
}

// The entry of node `k` from those of the nodes after it.
fn clause_at(
    b: &[u8],
    starts: &Starts,
    ends: &Ends,
    owners: &Owners,
    parents: &[u16; MOST_NODES],
    held: &[u32; MOST_NODES],
    k: usize,
) -> u32
    requires { NodeAt b.now starts.now ends.now owners.now k × ParentsOf b.now parents.now × TreesAccepted b.now × ClausesFrom b.now held.now (k + 1) }
    ensures { result ≡ entry_of (clause_within b.now (nodes b.now) k) }
{
    if is_body(b, starts, ends, owners, k) {
        return 0;
    }
    let p = usize::from(parents[k]);
    let rec = indexed(b, starts, first_node(b) + p);
    if kind(rec) == sheet_kinds::CASE {
        return clause_of(rec, k);
    }
    held[p]
}

// Fills the table of clauses.
pub fn fill_clauses(
    b: &[u8],
    starts: &Starts,
    ends: &Ends,
    owners: &Owners,
    parents: &[u16; MOST_NODES],
    held: &mut [u32; MOST_NODES],
)
    requires { Ruled b.now starts.now ends.now owners.now parents.now × (length held.old ≡ most_nodes) }
    ensures { ClausesOf b.now held.new }
{
    for k in (0..usize::from(nodes(b))).rev() {
        held[k] = clause_at(b, starts, ends, owners, parents, held, k);
    }
}

// The pattern rules of node `k`.
fn pattern_right(b: &[u8], starts: &Starts, held: &[u32; MOST_NODES], k: usize) -> bool
    requires { (Opened Sheet b.now starts.now) × ClausesOf b.now held.now × TreesAccepted b.now × (k < nodes b.now) }
    ensures { result ≡ pattern_right b.now k }
{
    let rec = indexed(b, starts, first_node(b) + k);
    if kind(rec) != sheet_kinds::PATTERN_VARIABLE {
        return true;
    }
    let h = held[k];
    if h < 1 {
        return false;
    }
    field(rec, 0) < arity(b, starts, h as usize - 1)
}

// The pattern rules of every node.
pub fn patterns(b: &[u8], starts: &Starts, held: &[u32; MOST_NODES]) -> Result<(), Refusal>
    requires { (Opened Sheet b.now starts.now) × ClausesOf b.now held.now × TreesAccepted b.now }
    ensures { as_verdict result ≡ first_of (nodes b.now) (pattern b.now) }
{
    let first = first_node(b);
    let count = usize::from(nodes(b));
    for k in 0..count {
        if !pattern_right(b, starts, held, k) {
            return Err(Refusal {
                reason: Reason::BadTree,
                place: first + k,
            });
        }
    }
    Ok(())
}
