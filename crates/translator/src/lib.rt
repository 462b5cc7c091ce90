// The translator: a sheet's bytes in, its translation's bytes out (document 01, "Translation").
#![tactic(auto)]

ghost use Rattle.definitions.specs.Refusals.{as_written};
ghost use Rattle.definitions.specs.Trees.{equal_trees};
ghost use Rattle.definitions.specs.Translate.{translation_words};
ghost use Rattle.translation_words.specs.Writing.{WroteWords};
ghost use Rattle.translator.specs.Promise.{Translates};
ghost use Rattle.tree_classes.specs.Classes.{ReadTables};
ghost use Rattle.translator.specs.Tables.{CallTables};

mod calls;
mod file;
mod formals;
mod kinds;
mod nodes;
mod tables;

use crate::calls::{first_calls, order_calls};
use crate::file::{fits, put_file};
use crate::tables::first_formals;
use call_labels::label_nodes;
use definitions::refusals::{Reason, Refusal, require};
use definitions::sizes::{
    Ends, MOST_FUNCTIONS, MOST_NODES, MOST_RECORDS, OfFunctions, OfNodes, Owners, Starts,
};
use format::sheet::fill_sheet;
use tree_classes::class_nodes;

// Translates a sheet into a lent output. The answer is the translation's length, and the output starts with the
// translation and stays as it was past it; or it is the refusal, and the output stays as it was.
pub fn translate(sheet: &[u8], out: &mut [u8]) -> Result<usize, Refusal>
    ensures { Translates sheet.now out.old (as_written result) out.new }
{
    let mut starts = [0u16; MOST_RECORDS];
    let mut ends = [0u16; MOST_FUNCTIONS];
    let mut owners = [0u8; MOST_NODES];
    fill_sheet(sheet, &mut starts, &mut ends, &mut owners)?;
    translate_accepted(sheet, &starts, &ends, &owners, out)
}

// Translates an accepted sheet.
fn translate_accepted(
    sheet: &[u8],
    starts: &Starts,
    ends: &Ends,
    owners: &Owners,
    out: &mut [u8],
) -> Result<usize, Refusal>
    requires { ReadTables sheet.now starts.now ends.now owners.now }
    ensures { Translates sheet.now out.old (as_written result) out.new }
{
    let mut classes = [0u16; MOST_NODES];
    class_nodes(sheet, starts, ends, owners, &mut classes);
    let mut labels = [0u16; MOST_NODES];
    let mut counts = [0u16; MOST_FUNCTIONS];
    label_nodes(sheet, starts, &classes, &mut labels, &mut counts);
    let room = out.len();
    require(fits(sheet, starts, &counts, room), Reason::ShortOutput)?;
    let length = write(sheet, starts, ends, owners, &classes, &labels, &counts, out);
    Ok(length)
}

// Writes the translation into an output; the answer is its length.
fn write(
    sheet: &[u8],
    starts: &Starts,
    ends: &Ends,
    owners: &Owners,
    classes: &OfNodes,
    labels: &OfNodes,
    counts: &OfFunctions,
    out: &mut [u8],
) -> usize
    requires { CallTables sheet.now starts.now ends.now owners.now classes.now labels.now counts.now }
    ensures { WroteWords out.old 0 (translation_words (equal_trees sheet.now) sheet.now) result out.new }
{
    let firsts = first_calls(sheet, counts);
    let mut order = [0u16; MOST_NODES];
    order_calls(sheet, starts, classes, labels, &firsts, &mut order);
    let formals = first_formals(sheet, starts);
    put_file(
        sheet, starts, ends, owners, labels, &firsts, &order, &formals, out,
    )
}
