// The length of an accepted sheet's translation, counted in words of two bytes from the sheet's records and the labels of each function.
ghost use Rattle.std.specs.Prelude.{◌≡◌, ◌≤◌, ◌<◌, length};
ghost use Rattle.definitions.specs.Sizes.{translation_bytes};
ghost use Rattle.definitions.specs.Lists.{sum_of};
ghost use Rattle.definitions.specs.Layouts.{functions, nodes};
ghost use Rattle.definitions.specs.Translate.{translation};
ghost use Rattle.tree_classes.specs.Classes.{AcceptedSheet};
ghost use Rattle.translation_length.specs.Words.{CountedLabels, formal_length, node_length, record_length};

use definitions::sheet_kinds;
use definitions::sizes::{OfFunctions, Starts};
use file_layout::layout::{first_node, functions, nodes};
use file_records::declared_counts::parameters;
use file_records::records::{indexed, kind};

// The words of the head's record, and of a function's.
const HEAD_WORDS: usize = 6;

const FUNCTION_WORDS: usize = 4;

// The bytes of the translation.
pub fn count_bytes(b: &[u8], starts: &Starts, counts: &OfFunctions) -> usize
    requires { CountedLabels b.now starts.now counts.now }
    ensures { result ≡ length (translation b.now) }
{
    let sections = HEAD_WORDS + FUNCTION_WORDS * usize::from(functions(b));
    2 * (sections + count_formals(b, starts, counts) + count_nodes(b, starts))
}

// The words of all formals.
fn count_formals(b: &[u8], starts: &Starts, counts: &OfFunctions) -> usize
    requires { CountedLabels b.now starts.now counts.now }
    ensures { (result ≡ sum_of (functions b.now) (formal_length b.now)) × (result ≤ translation_bytes) }
{
    let count = usize::from(functions(b));
    let mut total: usize = 0;
    for f in 0..count {
        total += count_function(b, starts, counts, f);
    }
    total
}

// The words of the formals of function `f`: of each, two and one for each label.
fn count_function(b: &[u8], starts: &Starts, counts: &OfFunctions, f: usize) -> usize
    requires { CountedLabels b.now starts.now counts.now × (f < functions b.now) }
    ensures { result ≡ formal_length b.now f }
{
    usize::from(parameters(b, starts, f)) * (2 + usize::from(counts[f]))
}

// The words of all nodes.
fn count_nodes(b: &[u8], starts: &Starts) -> usize
    requires { AcceptedSheet b.now starts.now }
    ensures { (result ≡ sum_of (nodes b.now) (node_length b.now)) × (result ≤ translation_bytes) }
{
    let first = first_node(b);
    let count = usize::from(nodes(b));
    let mut total: usize = 0;
    for k in 0..count {
        total += count_node(indexed(b, starts, first + k));
    }
    total
}

// The words of the translation of a node with this record.
#[tactic(auto, unfolding(crate::specs::Words::record_length))]
fn count_node(rec: &[u8]) -> usize
    ensures { result ≡ record_length rec.now }
{
    match kind(rec) {
        sheet_kinds::CALL | sheet_kinds::PATTERN_VARIABLE => 4,
        _ => rec.len() / 2,
    }
}
