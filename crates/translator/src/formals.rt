// The records of formals: by function, then position, each with the argument nodes in label order.
ghost use Rattle.definitions.specs.TranslationKinds.{formal_list};
ghost use Rattle.definitions.specs.Lists.{joined};
ghost use Rattle.definitions.specs.Layouts.{functions};
ghost use Rattle.definitions.specs.Trees.{equal_trees};
ghost use Rattle.definitions.specs.Labels.{actuals};
ghost use Rattle.definitions.specs.Translate.{record_words, formal_words};
ghost use Rattle.std.specs.Prelude.{◌<◌};
ghost use Rattle.translation_words.specs.Writing.{WroteWords};
ghost use Rattle.translator.specs.Tables.{OrderedCalls, FormalAt};

use crate::kinds::FORMAL_LIST;
use crate::tables::Sums;
use definitions::sizes::{OfNodes, Starts};
use file_layout::layout::{first_node, functions};
use file_records::declared_counts::parameters;
use file_records::records::{field, indexed};
use translation_words::{put, put_start};

// Writes the arguments at position `i` of the first calls of function `f`.
fn put_actuals(
    b: &[u8],
    starts: &Starts,
    firsts: &Sums,
    order: &OfNodes,
    f: usize,
    i: usize,
    out: &mut [u8],
    at: usize,
) -> usize
    requires { FormalAt b.now starts.now firsts.now order.now f i }
    ensures { WroteWords out.old at (actuals (equal_trees b.now) b.now f i) result out.new }
{
    let node = first_node(b);
    let first = usize::from(firsts[f]);
    let count = usize::from(firsts[f + 1]) - first;
    let mut next = at;
    for j in 0..count {
        let rec = indexed(b, starts, node + usize::from(order[first + j]));
        next = put(out, next, usize::from(field(rec, 1 + i)));
    }
    next
}

// Writes the formal of function `f` at position `i`.
fn put_formal(
    b: &[u8],
    starts: &Starts,
    firsts: &Sums,
    order: &OfNodes,
    f: usize,
    i: usize,
    out: &mut [u8],
    at: usize,
) -> usize
    requires { FormalAt b.now starts.now firsts.now order.now f i }
    ensures { WroteWords out.old at (record_words formal_list (actuals (equal_trees b.now) b.now f i)) result out.new }
{
    let count = usize::from(firsts[f + 1]) - usize::from(firsts[f]);
    let fields = put_start(out, at, FORMAL_LIST, count);
    put_actuals(b, starts, firsts, order, f, i, out, fields)
}

// Writes the formals of function `f`.
fn put_function_formals(
    b: &[u8],
    starts: &Starts,
    firsts: &Sums,
    order: &OfNodes,
    f: usize,
    out: &mut [u8],
    at: usize,
) -> usize
    requires { OrderedCalls b.now starts.now firsts.now order.now × (f < functions b.now) }
    ensures { WroteWords out.old at (formal_words (equal_trees b.now) b.now f) result out.new }
{
    let positions = usize::from(parameters(b, starts, f));
    let mut next = at;
    for i in 0..positions {
        next = put_formal(b, starts, firsts, order, f, i, out, next);
    }
    next
}

// Writes the formals of every function.
pub(crate) fn put_formals(
    b: &[u8],
    starts: &Starts,
    firsts: &Sums,
    order: &OfNodes,
    out: &mut [u8],
    at: usize,
) -> usize
    requires { OrderedCalls b.now starts.now firsts.now order.now }
    ensures { WroteWords out.old at (joined (functions b.now) (formal_words (equal_trees b.now) b.now)) result out.new }
{
    let count = usize::from(functions(b));
    let mut next = at;
    for f in 0..count {
        next = put_function_formals(b, starts, firsts, order, f, out, next);
    }
    next
}
