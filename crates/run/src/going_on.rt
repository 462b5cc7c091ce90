// What a visit does with the value of an operand: the visit that a selection, an if or a case goes on to, where an error is the outcome
// that it ends with; and the outcome of an operator. A constructor is its node and its context.
ghost use Rattle.definitions.specs.TranslationKinds as kinds;
ghost use Rattle.definitions.specs.Rule.{value, integer, constructor};
ghost use Rattle.run.specs.GoingOn.{OperandKnown, GoesOn, OperatorEnds};

use crate::look_up::{branch, clause, found_at, listed};
use crate::node_table::{Table, entry, first_in, second_in, third_in};
use crate::packed::packed;
use crate::state::{ended, given, tag};
use cells::cell::pair_of;
use definitions::numbers;
use operators::compute;

// A selection: index 0 is the tag, i is field i - 1 under the tuple's own context.
#[inline(always)]
pub(crate) fn field_selected(b: &[u8], tab: &Table, at: u32, tuple: (u16, u16)) -> Result<u32, u64>
    requires { OperandKnown b.now tab.now at kinds.select (value (constructor tuple.0 tuple.1)) }
    ensures { GoesOn b.now at kinds.select (value (constructor tuple.0 tuple.1)) result }
{
    let (node, v) = tuple;
    let i = second_in(entry(tab, (at % 0x1_0000) as u16));
    let fields = entry(tab, node);
    if i == 0 {
        return Err(packed(tag(first_in(fields))));
    }
    match listed(b, second_in(fields), third_in(fields), i) {
        Some(m) => Ok(pair_of(m, v)),
        None => Err(packed(ended(numbers::NO_FIELD))),
    }
}

// An if: nonzero takes the second node, zero the third, under the if's context.
pub(crate) fn arm_taken(b: &[u8], tab: &Table, at: u32, z: i32) -> u32
    requires { OperandKnown b.now tab.now at kinds.conditional (value (integer z)) }
    ensures { GoesOn b.now at kinds.conditional (value (integer z)) (Ok result) }
{
    let node = entry(tab, (at % 0x1_0000) as u16);
    let m = branch(z, second_in(node), third_in(node));
    pair_of(m, (at / 0x1_0000) as u16)
}

// A case: the first clause with the tag, under the case's context.
#[inline(always)]
pub(crate) fn clause_chosen(
    b: &[u8],
    tab: &Table,
    at: u32,
    scrutinee: (u16, u16),
) -> Result<u32, u64>
    requires { OperandKnown b.now tab.now at kinds.case_of (value (constructor scrutinee.0 scrutinee.1)) }
    ensures { GoesOn b.now at kinds.case_of (value (constructor scrutinee.0 scrutinee.1)) result }
{
    let (node, _) = scrutinee;
    let tag = first_in(entry(tab, node));
    let list = entry(tab, (at % 0x1_0000) as u16);
    match found_at(b, clause(b, second_in(list), third_in(list), tag)) {
        Some(m) => Ok(pair_of(m, (at / 0x1_0000) as u16)),
        None => Err(packed(ended(numbers::NO_CLAUSE))),
    }
}

// The outcome of the operator with a code, by its operands.
pub(crate) fn operated(code: u16, x: i32, y: i32) -> u64
    ensures { OperatorEnds code x y result }
{
    packed(given(compute(code, x, y)))
}
