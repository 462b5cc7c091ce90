// Which fields of a record name nodes, and the check of references.
ghost use Rattle.std.specs.Prelude.{◌≡◌, ◌+◌, ◌*◌, ◌-◌, ◌/◌, ◌<◌, ltb};
ghost use Rattle.definitions.specs.Lists.{all_of};
ghost use Rattle.definitions.specs.Records.{kind_of, field, field_count};
ghost use Rattle.definitions.specs.Trees.{names_node};
ghost use Rattle.definitions.specs.References.{from_first, from_second, every_other, child_count, children, child, clauses, clause_constructor};

use definitions::{sheet_kinds, translation_kinds};
use file_records::records::{field, field_count, field_inside, kind};

// Kinds in which every other field names a node: case and select.
#[tactic(auto, unfolding(definitions::specs::References::every_other))]
fn every_other(kind: u16) -> bool
    ensures { result ≡ every_other kind }
{
    matches!(
        kind,
        sheet_kinds::CASE | translation_kinds::CASE | translation_kinds::SELECT
    )
}

// Kinds whose fields name nodes from field 0 on: if, case, select and the list of actuals.
#[tactic(auto, unfolding(definitions::specs::References::from_first))]
fn from_first(kind: u16) -> bool
    ensures { result ≡ from_first kind }
{
    matches!(
        kind,
        sheet_kinds::CONDITIONAL | translation_kinds::CONDITIONAL | translation_kinds::FORMAL_LIST
    ) || every_other(kind)
}

// Kinds whose fields name nodes from field 1 on: operator, call, build and tuple.
#[tactic(auto, unfolding(definitions::specs::References::from_second))]
fn from_second(kind: u16) -> bool
    ensures { result ≡ from_second kind }
{
    matches!(
        kind,
        sheet_kinds::OPERATOR
            | sheet_kinds::CALL
            | sheet_kinds::BUILD
            | translation_kinds::OPERATOR
            | translation_kinds::TUPLE
    )
}

// Whether field `i` of a record of kind `kind` names a node.
#[tactic(auto, unfolding(definitions::specs::Trees::names_node))]
pub fn names_node(kind: u16, i: usize) -> bool
    ensures { result ≡ names_node kind i }
{
    if every_other(kind) {
        i % 2 == 0
    } else {
        from_first(kind) || from_second(kind) && 1 <= i
    }
}

// How many fields of a record of a kind with n fields name nodes.
#[tactic(auto, unfolding(definitions::specs::References::child_count))]
fn child_count(kind: u16, n: usize) -> usize
    ensures { result ≡ child_count kind n }
{
    if every_other(kind) {
        n.div_ceil(2)
    } else if from_first(kind) {
        n
    } else if from_second(kind) {
        n.saturating_sub(1)
    } else {
        0
    }
}

// How many nodes a record names.
pub fn children(rec: &[u8]) -> usize
    ensures { result ≡ children rec.now }
{
    child_count(kind(rec), field_count(rec))
}

// The j-th node that a record names.
pub fn child(rec: &[u8], j: usize) -> u16
    ensures { result ≡ child rec.now j }
{
    if rec.len() / 2 <= j {
        return 0;
    }
    let k = kind(rec);
    if every_other(k) {
        field(rec, 2 * j)
    } else if from_first(k) {
        field(rec, j)
    } else {
        field(rec, 1 + j)
    }
}

// The j-th node that a record of kind `k` names, where it names more than j nodes.
pub fn child_inside(rec: &[u8], k: u16, j: usize) -> u16
    requires { (j < children rec.now) × (k ≡ kind_of rec.now) }
    ensures { result ≡ child rec.now j }
{
    if every_other(k) {
        field_inside(rec, 2 * j)
    } else if from_first(k) {
        field_inside(rec, j)
    } else {
        field_inside(rec, 1 + j)
    }
}

// How many clauses a case has, and the constructor of clause j.
pub fn clauses(rec: &[u8]) -> usize
    ensures { result ≡ clauses rec.now }
{
    field_count(rec) / 2
}

pub fn clause_constructor(rec: &[u8], j: usize) -> u16
    ensures { result ≡ clause_constructor rec.now j }
{
    if rec.len() / 2 <= j {
        0
    } else {
        field(rec, 1 + 2 * j)
    }
}

// Whether every node that a record names is below a limit.
pub fn children_below(rec: &[u8], limit: usize) -> bool
    ensures { result ≡ all_of (children rec.now) (λ j. ltb (child rec.now j) limit) }
{
    let k = kind(rec);
    let count = children(rec);
    for j in 0..count {
        if limit <= usize::from(child_inside(rec, k, j)) {
            return false;
        }
    }
    true
}

// Whether every constructor of a case's clauses is below a limit.
pub fn constructors_below(rec: &[u8], limit: usize) -> bool
    ensures { result ≡ all_of (clauses rec.now) (λ j. ltb (clause_constructor rec.now j) limit) }
{
    let count = clauses(rec);
    for j in 0..count {
        if limit <= usize::from(clause_constructor(rec, j)) {
            return false;
        }
    }
    true
}
