// The checks of both files up to the left-over bytes, in one walk that also fills the index.
#![tactic(auto)]

mod types;

ghost use Rattle.std.specs.Prelude.{◌≡◌, ◌+◌, ◌≤◌, length};
ghost use Rattle.definitions.specs.Sizes.{most_records};
ghost use Rattle.definitions.specs.Records.{field};
ghost use Rattle.definitions.specs.Lists.{sum_of};
ghost use Rattle.definitions.specs.Layouts.{functions, first_function, function_record, due};
ghost use Rattle.definitions.specs.Shape.{file_limit, head_counts, run_counts, parameter_counts, typed_function_counts, counts, operator_code, shape_at};
ghost use Rattle.definitions.specs.Refusals.{as_verdict};
ghost use Rattle.file_records.specs.Index.{Indexed};
ghost use Rattle.file_shape.specs.Walks.{WalkAt, Walked};

use crate::types::{typed_constructor_counts, types_right};
use definitions::refusals::{Reason, Refusal};
use definitions::sizes::{MOST_FIELDS, MOST_FUNCTIONS, MOST_NODES, MOST_READINGS, Starts};
use definitions::{Layout, operator_codes, sheet_kinds, translation_kinds};
use file_fields::bytes::{word, word_inside};
use file_kinds::{Rows, allows, rows};
use file_layout::layout::{
    count_field, due, file_limit, first_function, first_node, functions, is_due, item_limit, items,
    nodes, readings,
};
use file_records::records::{field, indexed, kind, record_at};

// The head's counts are in their ranges.
#[tactic(auto, unfolding(definitions::specs::Shape::head_counts, definitions::specs::Ranges::within))]
fn head_counts(y: Layout, b: &[u8]) -> bool
    ensures { result ≡ head_counts y b.now }
{
    let f = usize::from(functions(b));
    let n = usize::from(nodes(b));
    usize::from(readings(b)) <= MOST_READINGS
        && usize::from(items(b)) <= item_limit(y)
        && 1 <= f
        && f <= MOST_FUNCTIONS
        && 1 <= n
        && n <= MOST_NODES
}

// The sum of field `j` over the functions' records.
fn field_total(y: Layout, b: &[u8], starts: &Starts, j: usize) -> usize
    requires { Indexed b.now starts.now (first_function y b.now + functions b.now) }
    ensures { result ≡ sum_of (functions b.now) (λ f. field (function_record y b.now f) j) }
{
    let first = first_function(y, b);
    let count = usize::from(functions(b));
    let mut total: usize = 0;
    for f in 0..count {
        total += usize::from(field(indexed(b, starts, first + f), j));
    }
    total
}

// A function's counts: its own node count, and at the last function the sum.
#[tactic(auto, unfolding(definitions::specs::Shape::run_counts, definitions::specs::Ranges::within, definitions::specs::Layouts::node_count))]
fn run_counts(y: Layout, b: &[u8], starts: &Starts, r: usize, rec: &[u8]) -> bool
    requires { Indexed b.now starts.now (r + 1) }
    ensures { result ≡ run_counts y b.now r rec.now }
{
    let j = count_field(y);
    if field(rec, j) < 1 {
        return false;
    }
    if r + 1 == first_function(y, b) + usize::from(functions(b)) {
        return field_total(y, b, starts, j) == usize::from(nodes(b));
    }
    true
}

// A translation's parameter counts: the function's own, and at the last function the sum.
#[tactic(auto, unfolding(definitions::specs::Shape::parameter_counts, definitions::specs::Ranges::within, definitions::specs::Layouts::parameter_count))]
fn parameter_counts(b: &[u8], starts: &Starts, r: usize, rec: &[u8]) -> bool
    requires { Indexed b.now starts.now (r + 1) }
    ensures { result ≡ parameter_counts b.now r rec.now }
{
    if MOST_FIELDS < usize::from(field(rec, 1)) {
        return false;
    }
    let y = Layout::Translation;
    if r + 1 == first_function(y, b) + usize::from(functions(b)) {
        return field_total(y, b, starts, 1) == usize::from(items(b));
    }
    true
}

// A typed function's counts.
#[tactic(auto, unfolding(definitions::specs::Shape::typed_function_counts, definitions::specs::Ranges::within))]
fn typed_function_counts(y: Layout, b: &[u8], starts: &Starts, r: usize, rec: &[u8]) -> bool
    requires { Indexed b.now starts.now (r + 1) }
    ensures { result ≡ typed_function_counts y b.now r rec.now }
{
    let n = usize::from(field(rec, 0));
    n <= MOST_FIELDS && run_counts(y, b, starts, r, rec) && types_right(rec, 3 + n)
}

// The counts of record `r`.
#[tactic(auto, unfolding(definitions::specs::Shape::counts, definitions::specs::Ranges::within))]
fn counts(y: Layout, b: &[u8], starts: &Starts, r: usize, rec: &[u8]) -> bool
    requires { Indexed b.now starts.now (r + 1) }
    ensures { result ≡ counts y b.now r rec.now }
{
    if r == 0 {
        return head_counts(y, b);
    }
    match kind(rec) {
        sheet_kinds::CONSTRUCTOR => usize::from(field(rec, 0)) <= MOST_FIELDS,
        sheet_kinds::FUNCTION => {
            usize::from(field(rec, 0)) <= MOST_FIELDS && run_counts(y, b, starts, r, rec)
        }
        sheet_kinds::TYPED_CONSTRUCTOR => typed_constructor_counts(rec),
        sheet_kinds::TYPED_FUNCTION => typed_function_counts(y, b, starts, r, rec),
        translation_kinds::FUNCTION => {
            parameter_counts(b, starts, r, rec) && run_counts(y, b, starts, r, rec)
        }
        _ => true,
    }
}

// The operator code is at most the greatest, in a record that has one.
#[tactic(auto, unfolding(definitions::specs::Shape::operator_code, definitions::specs::Ranges::within))]
fn operator_code(rec: &[u8]) -> bool
    ensures { result ≡ operator_code rec.now }
{
    match kind(rec) {
        sheet_kinds::OPERATOR | translation_kinds::OPERATOR => {
            field(rec, 0) <= operator_codes::GREATEST
        }
        _ => true,
    }
}

// The checks of record `r`, which starts at `at`; the nodes start at record `first`.
fn shape_at(
    rows: &Rows,
    y: Layout,
    b: &[u8],
    starts: &Starts,
    first: usize,
    r: usize,
    at: usize,
) -> Result<(), Refusal>
    requires { WalkAt rows.now b.now starts.now first r at }
    ensures { as_verdict result ≡ shape_at y b.now r at }
{
    let left = b.len() - at;
    if left < 4 {
        return Err(Refusal {
            reason: Reason::Truncated,
            place: r,
        });
    }
    let k = word_inside(b, at + 2);
    let n = word_inside(b, at);
    if !is_due(y, b, first, r, k) {
        return Err(Refusal {
            reason: Reason::BadRecord,
            place: r,
        });
    }
    if !allows(rows, k, n) {
        return Err(Refusal {
            reason: Reason::BadRecord,
            place: r,
        });
    }
    if left < usize::from(n) {
        return Err(Refusal {
            reason: Reason::Truncated,
            place: r,
        });
    }
    let rec = record_at(b, at);
    if !operator_code(rec) {
        return Err(Refusal {
            reason: Reason::BadRecord,
            place: r,
        });
    }
    if !counts(y, b, starts, r, rec) {
        return Err(Refusal {
            reason: Reason::BadCount,
            place: r,
        });
    }
    Ok(())
}

// One walk by lengths: the checks of every record due, then of bytes left over; the places go into the index.
fn walk(y: Layout, b: &[u8], starts: &mut Starts) -> Result<(), Refusal>
    requires { (length b.now ≤ file_limit y) × (length starts.old ≡ most_records) }
    ensures { Walked y b.now (as_verdict result) starts.new }
{
    let rows = rows();
    let first = first_node(b);
    let count = due(b);
    let mut at: usize = 0;
    for r in 0..count {
        starts[r] = at as u16;
        shape_at(&rows, y, b, starts, first, r, at)?;
        at += usize::from(word(b, at));
    }
    if at == b.len() {
        Ok(())
    } else {
        Err(Refusal {
            reason: Reason::BadRecord,
            place: count,
        })
    }
}

// The checks of a file up to the left-over bytes; fills the index of its records.
pub fn file_shape(y: Layout, b: &[u8], starts: &mut Starts) -> Result<(), Refusal>
    requires { length starts.old ≡ most_records }
    ensures { Walked y b.now (as_verdict result) starts.new }
{
    if file_limit(y) < b.len() {
        return Err(Refusal {
            reason: Reason::Oversize,
            place: 0,
        });
    }
    walk(y, b, starts)
}
