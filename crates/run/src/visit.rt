// The visits of a run: of a node, and by its kind of a formal, a selection, a case and the rest. They call each other while the steps
// left fall. `tab` is the table of the run; `counts` has the counts of the run; `limits` has the visits that may still
// be nested below and the cell allowance above; `at` has the node below and the context above.
ghost use Rattle.definitions.specs.TranslationKinds as kinds;
ghost use Rattle.run.specs.States.{Visitable, Evaluable, Visits, Evaluates};

use crate::formal_places::POSITIONS;
use crate::going_on::{arm_taken, clause_chosen, field_selected, operated};
use crate::look_up::{cell_in, listed};
use crate::memory::{is_own, recall, remember};
use crate::node_table::{Table, entry, first_in, kind_in, number_in, reading, second_in, third_in};
use crate::packed::{is_value, opened, packed};
use crate::state::{Value, constructor, ended, number};
use cells::cell::{add_cell, pair_of};
use definitions::{numbers, translation_kinds};
use live_counts::Counts;

// Visits a node under a context: the two stops, the step counted, and the node by its kind.
#[cycle(visits)]
pub(crate) fn visit(
    b: &&[u8],
    tab: &Table,
    cells: &mut &mut [u8],
    counts: &mut Counts,
    limits: u32,
    at: u32,
) -> u64
    requires { Visitable b.now.now tab.now limits at counts.old cells.old.now }
    ensures { Visits b.now.now tab.now limits at counts.old cells.old result counts.new cells.new }
{
    let left = counts.left;
    if left == 0 {
        return packed(ended(numbers::NO_STEP));
    }
    if limits % 0x1_0000 == 0 {
        return packed(ended(numbers::NO_NESTING));
    }
    counts.left = left - 1;
    let limits = limits - 1;
    let k = (at % 0x1_0000) as u16;
    let node = entry(tab, k);
    let kind = kind_in(node);
    if kind == translation_kinds::NUMBER {
        return packed(number(number_in(node)));
    }
    if kind == translation_kinds::FORMAL {
        return visit_formal(b, tab, cells, counts, limits, at);
    }
    if kind == translation_kinds::TUPLE {
        return packed(constructor(k, (at / 0x1_0000) as u16));
    }
    if kind == translation_kinds::CALL {
        return visit_call(b, tab, cells, counts, limits, at);
    }
    if kind == translation_kinds::SELECT {
        return visit_select(b, tab, cells, counts, limits, at);
    }
    if kind == translation_kinds::OPERATOR {
        return visit_operator(b, tab, cells, counts, limits, at);
    }
    if kind == translation_kinds::READING {
        return packed(number(reading(tab, first_in(node))));
    }
    if kind == translation_kinds::CONDITIONAL {
        return visit_conditional(b, tab, cells, counts, limits, at);
    }
    visit_case(b, tab, cells, counts, limits, at)
}

// A formal: what the head cell remembers of it, where its own function's call made that cell; else visits the actual that the head
// label names, under the tail, and has a value remembered.
#[cycle(visits)]
fn visit_formal(
    b: &&[u8],
    tab: &Table,
    cells: &mut &mut [u8],
    counts: &mut Counts,
    limits: u32,
    at: u32,
) -> u64
    requires { Evaluable b.now.now tab.now limits at counts.old cells.old.now kinds.formal }
    ensures { Evaluates b.now.now tab.now limits at counts.old cells.old result counts.new cells.new }
{
    let w = (at / 0x1_0000) as u16;
    if w == 0 {
        return packed(ended(numbers::NO_ACTUAL));
    }
    let node = entry(tab, (at % 0x1_0000) as u16);
    let place = first_in(node);
    let own = is_own(*cells, w, place / POSITIONS);
    let known = recall(*cells, own, w, place % POSITIONS);
    if is_value(known) {
        return known;
    }
    let cell = cell_in(*cells, w);
    let label = (cell % 0x1_0000) as u16;
    let Some(n) = listed(*b, second_in(node), third_in(node), label) else {
        return packed(ended(numbers::NO_ACTUAL));
    };
    let tail = (cell / 0x1_0000) as u16;
    let x = visit(b, tab, cells, counts, limits, pair_of(n, tail));
    remember(*cells, own, w, place % POSITIONS, x);
    counts.note_constructor(own, w, kind_in(x));
    x
}

// A selection: the tuple, and then the field that it selects.
#[cycle(visits)]
fn visit_select(
    b: &&[u8],
    tab: &Table,
    cells: &mut &mut [u8],
    counts: &mut Counts,
    limits: u32,
    at: u32,
) -> u64
    requires { Evaluable b.now.now tab.now limits at counts.old cells.old.now kinds.select }
    ensures { Evaluates b.now.now tab.now limits at counts.old cells.old result counts.new cells.new }
{
    let n = first_in(entry(tab, (at % 0x1_0000) as u16));
    let w = (at / 0x1_0000) as u16;
    let tuple = visit(b, tab, cells, counts, limits, pair_of(n, w));
    let state = opened(tuple, counts.left, counts.most);
    let Ok(value) = state.outcome else {
        return tuple;
    };
    let Value::Constructor { node, context } = value else {
        return packed(ended(numbers::CONSTRUCTOR_WANTED));
    };
    match field_selected(*b, tab, at, (node, context)) {
        Ok(next) => visit(b, tab, cells, counts, limits, next),
        Err(end) => end,
    }
}

// An operator: the left operand has to be a number before the right is visited.
#[cycle(visits)]
fn visit_operator(
    b: &&[u8],
    tab: &Table,
    cells: &mut &mut [u8],
    counts: &mut Counts,
    limits: u32,
    at: u32,
) -> u64
    requires { Evaluable b.now.now tab.now limits at counts.old cells.old.now kinds.operator }
    ensures { Evaluates b.now.now tab.now limits at counts.old cells.old result counts.new cells.new }
{
    let k = (at % 0x1_0000) as u16;
    let w = (at / 0x1_0000) as u16;
    let n = second_in(entry(tab, k));
    let first = visit(b, tab, cells, counts, limits, pair_of(n, w));
    let state = opened(first, counts.left, counts.most);
    let Ok(value) = state.outcome else {
        return first;
    };
    let Value::Number(x) = value else {
        return packed(ended(numbers::NUMBER_WANTED));
    };
    let m = third_in(entry(tab, k));
    let second = visit(b, tab, cells, counts, limits, pair_of(m, w));
    let state = opened(second, counts.left, counts.most);
    let Ok(value) = state.outcome else {
        return second;
    };
    let Value::Number(y) = value else {
        return packed(ended(numbers::NUMBER_WANTED));
    };
    operated(first_in(entry(tab, k)), x, y)
}

// An if: the condition, and then the arm that it takes.
#[cycle(visits)]
fn visit_conditional(
    b: &&[u8],
    tab: &Table,
    cells: &mut &mut [u8],
    counts: &mut Counts,
    limits: u32,
    at: u32,
) -> u64
    requires { Evaluable b.now.now tab.now limits at counts.old cells.old.now kinds.conditional }
    ensures { Evaluates b.now.now tab.now limits at counts.old cells.old result counts.new cells.new }
{
    let n = first_in(entry(tab, (at % 0x1_0000) as u16));
    let w = (at / 0x1_0000) as u16;
    let condition = visit(b, tab, cells, counts, limits, pair_of(n, w));
    let state = opened(condition, counts.left, counts.most);
    let Ok(value) = state.outcome else {
        return condition;
    };
    let Value::Number(z) = value else {
        return packed(ended(numbers::NUMBER_WANTED));
    };
    let arm = arm_taken(*b, tab, at, z);
    visit(b, tab, cells, counts, limits, arm)
}

// A case: the scrutinee, and then the clause that it chooses.
#[cycle(visits)]
fn visit_case(
    b: &&[u8],
    tab: &Table,
    cells: &mut &mut [u8],
    counts: &mut Counts,
    limits: u32,
    at: u32,
) -> u64
    requires { Evaluable b.now.now tab.now limits at counts.old cells.old.now kinds.case_of }
    ensures { Evaluates b.now.now tab.now limits at counts.old cells.old result counts.new cells.new }
{
    let n = first_in(entry(tab, (at % 0x1_0000) as u16));
    let w = (at / 0x1_0000) as u16;
    let scrutinee = visit(b, tab, cells, counts, limits, pair_of(n, w));
    let state = opened(scrutinee, counts.left, counts.most);
    let Ok(value) = state.outcome else {
        return scrutinee;
    };
    let Value::Constructor { node, context } = value else {
        return packed(ended(numbers::CONSTRUCTOR_WANTED));
    };
    match clause_chosen(*b, tab, at, (node, context)) {
        Ok(next) => visit(b, tab, cells, counts, limits, next),
        Err(end) => end,
    }
}

// A call: one cell more alive, and the body under it; then the call is closed, which may give cells back.
#[cycle(visits)]
fn visit_call(
    b: &&[u8],
    tab: &Table,
    cells: &mut &mut [u8],
    counts: &mut Counts,
    limits: u32,
    at: u32,
) -> u64
    requires { Evaluable b.now.now tab.now limits at counts.old cells.old.now kinds.call }
    ensures { Evaluates b.now.now tab.now limits at counts.old cells.old result counts.new cells.new }
{
    let live = counts.live;
    if limits / 0x1_0000 <= live {
        return packed(ended(numbers::NO_CELL));
    }
    let oldest = counts.oldest;
    let node = entry(tab, (at % 0x1_0000) as u16);
    let w = (at / 0x1_0000) as u16;
    add_cell(*cells, live as usize, first_in(node), w, second_in(node));
    counts.open_call();
    let body = pair_of(third_in(node), (live + 1) as u16);
    let x = visit(b, tab, cells, counts, limits, body);
    counts.close_call(live, oldest, kind_in(x));
    x
}
