// The whole translation: head, functions, formals, nodes.
ghost use Rattle.std.specs.Prelude.{◌≡◌, length, leb};
ghost use Rattle.definitions.specs.Lists.{joined};
ghost use Rattle.definitions.specs.Layouts.{functions};
ghost use Rattle.definitions.specs.References.{parameters};
ghost use Rattle.definitions.specs.Shape.{file_shape};
ghost use Rattle.definitions.specs.Trees.{equal_trees};
ghost use Rattle.definitions.specs.Translate.{head_words, function_words, translation_words, translation};
ghost use Rattle.definitions.specs.declared.Layout.TheVariants.{Sheet};
ghost use Rattle.definitions.specs.Verdict.{Accepted};
ghost use Rattle.file_records.specs.Index.{Opened};
ghost use Rattle.translation_length.specs.Words.{CountedLabels};
ghost use Rattle.translation_words.specs.Writing.{WroteWords};
ghost use Rattle.translator.specs.Tables.{Sums, Tables};

use crate::formals::put_formals;
use crate::kinds::{FUNCTION, HEAD};
use crate::nodes::put_nodes;
use crate::tables::Sums;
use definitions::Layout;
use definitions::sizes::{Ends, OfFunctions, OfNodes, Owners, Starts, TRANSLATION_BYTES};
use file_layout::layout::{first_function, functions, nodes, readings};
use file_records::records::{field, indexed};
use translation_length::counting::count_bytes;
use translation_words::{put, put_start, put_two};

// Writes the head.
fn put_head(b: &[u8], formals: &Sums, out: &mut [u8], at: usize) -> usize
    requires { (file_shape Sheet b.now ≡ Accepted) × Sums (functions b.now) (parameters b.now) formals.now }
    ensures { WroteWords out.old at (head_words b.now) result out.new }
{
    let count = usize::from(functions(b));
    let first = put_start(out, at, HEAD, 4);
    let second = put(out, first, usize::from(readings(b)));
    let third = put(out, second, usize::from(formals[count]));
    let fourth = put(out, third, count);
    put(out, fourth, usize::from(nodes(b)))
}

// Writes the record of every function.
fn put_functions(b: &[u8], starts: &Starts, out: &mut [u8], at: usize) -> usize
    requires { Opened Sheet b.now starts.now }
    ensures { WroteWords out.old at (joined (functions b.now) (function_words b.now)) result out.new }
{
    let first = first_function(Layout::Sheet, b);
    let count = usize::from(functions(b));
    let mut next = at;
    for f in 0..count {
        let rec = indexed(b, starts, first + f);
        next = put_two(
            out,
            next,
            FUNCTION,
            usize::from(field(rec, 1)),
            usize::from(field(rec, 0)),
        );
    }
    next
}

// Writes the translation from the output's start on; the answer is its length.
pub(crate) fn put_file(
    b: &[u8],
    starts: &Starts,
    ends: &Ends,
    owners: &Owners,
    labels: &OfNodes,
    firsts: &Sums,
    order: &OfNodes,
    formals: &Sums,
    out: &mut [u8],
) -> usize
    requires { Tables b.now starts.now ends.now owners.now labels.now firsts.now order.now formals.now }
    ensures { WroteWords out.old 0 (translation_words (equal_trees b.now) b.now) result out.new }
{
    let first_function = put_head(b, formals, out, 0);
    let first_formal = put_functions(b, starts, out, first_function);
    let first_node = put_formals(b, starts, firsts, order, out, first_formal);
    put_nodes(b, starts, ends, owners, labels, formals, out, first_node)
}

// Whether an output of `room` bytes holds the translation. One of the greatest length holds every translation; for another its
// length is counted.
pub(crate) fn fits(b: &[u8], starts: &Starts, counts: &OfFunctions, room: usize) -> bool
    requires { CountedLabels b.now starts.now counts.now }
    ensures { result ≡ leb (length (translation b.now)) room }
{
    TRANSLATION_BYTES <= room || count_bytes(b, starts, counts) <= room
}
