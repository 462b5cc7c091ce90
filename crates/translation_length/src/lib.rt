// How long a sheet's translation would be (document 02, request 3): what translating into an output of a stated length would
// answer, with no output lent. The length is counted; no byte of the translation is made.
#![tactic(auto)]

ghost use Rattle.std.specs.Prelude.{◌≡◌};
ghost use Rattle.definitions.specs.Refusals.{as_written};
ghost use Rattle.definitions.specs.Translate.{translation_answer};
ghost use Rattle.tree_classes.specs.Classes.{ReadTables};

pub mod counting;

use crate::counting::count_bytes;
use call_labels::label_nodes;
use definitions::refusals::{Reason, Refusal, require};
use definitions::sizes::{Ends, MOST_FUNCTIONS, MOST_NODES, MOST_RECORDS, Owners, Starts};
use format::sheet::fill_sheet;
use tree_classes::class_nodes;

// What translating a sheet into an output of `room` bytes would answer: the translation's length, or the refusal.
pub fn translated_length(sheet: &[u8], room: usize) -> Result<usize, Refusal>
    ensures { as_written result ≡ translation_answer sheet.now room }
{
    let mut starts = [0u16; MOST_RECORDS];
    let mut ends = [0u16; MOST_FUNCTIONS];
    let mut owners = [0u8; MOST_NODES];
    match fill_sheet(sheet, &mut starts, &mut ends, &mut owners) {
        Err(refusal) => Err(refusal),
        Ok(()) => length_accepted(sheet, &starts, &ends, &owners, room),
    }
}

// The same of an accepted sheet: its length, where the last byte of the translation is inside the output.
fn length_accepted(
    sheet: &[u8],
    starts: &Starts,
    ends: &Ends,
    owners: &Owners,
    room: usize,
) -> Result<usize, Refusal>
    requires { ReadTables sheet.now starts.now ends.now owners.now }
    ensures { as_written result ≡ translation_answer sheet.now room }
{
    let mut classes = [0u16; MOST_NODES];
    class_nodes(sheet, starts, ends, owners, &mut classes);
    let mut labels = [0u16; MOST_NODES];
    let mut counts = [0u16; MOST_FUNCTIONS];
    label_nodes(sheet, starts, &classes, &mut labels, &mut counts);
    let length = count_bytes(sheet, starts, &counts);
    require(length - 1 < room, Reason::ShortOutput)?;
    Ok(length)
}
