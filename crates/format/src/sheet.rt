// The reader of sheets.
ghost use Rattle.std.specs.Prelude.{◌≡◌};
ghost use Rattle.definitions.specs.Refusals.{as_verdict};
ghost use Rattle.definitions.specs.Verdicts.{◌and_then◌, first_of};
ghost use Rattle.definitions.specs.Layouts.{nodes};
ghost use Rattle.definitions.specs.SheetRules.{pattern};
ghost use Rattle.definitions.specs.Types.{types};
ghost use Rattle.definitions.specs.Checks.{sheet_verdict};
ghost use Rattle.definitions.specs.declared.Layout.TheVariants.{Sheet};
ghost use Rattle.file_records.specs.Index.{Opened};
ghost use Rattle.file_runs.specs.Runs.{RunEndTable, Owners};
ghost use Rattle.sheet_rules.specs.Clauses.{Ruled};
ghost use Rattle.format.specs.Readers.{LentSheetTables, ReadSheet};
ghost use Rattle.format.specs.Tables.{ReadsSheet};

use definitions::Layout;
use definitions::refusals::Refusal;
use definitions::sizes::{Ends, MOST_FUNCTIONS, MOST_NODES, MOST_RECORDS, Owners, Starts};
use file_layout::layout::is_typed;
use file_runs::{run_ends, run_owners};
use file_shape::file_shape;
use sheet_rules::names::names;
use sheet_rules::patterns::{fill_clauses, patterns};
use sheet_rules::seen::note_sheet;
use sheet_rules::tree::trees;
use sheet_types::types;

// The tables of an accepted sheet: where its records start, where the runs of its functions end, and which function owns each node.
#[derive(Clone, Copy)]
pub struct SheetTables {
    pub starts: Starts,
    pub ends: Ends,
    pub owners: Owners,
}

// The last checks of a sheet whose trees are accepted: the pattern rules, then of a typed sheet 22.
fn last_checks(
    b: &[u8],
    starts: &Starts,
    ends: &Ends,
    owners: &Owners,
    parents: &[u16; MOST_NODES],
) -> Result<(), Refusal>
    requires { Ruled b.now starts.now ends.now owners.now parents.now }
    ensures { as_verdict result ≡ (first_of (nodes b.now) (pattern b.now) and_then types b.now) }
{
    let mut held = [0u32; MOST_NODES];
    fill_clauses(b, starts, ends, owners, parents, &mut held);
    patterns(b, starts, &held)?;
    if !is_typed(b) {
        return Ok(());
    }
    types(b, starts, ends, owners, parents, &held)
}

// The checks of a sheet whose shape is accepted: 5 and 7, then 6, then 22.
fn checks(b: &[u8], starts: &Starts, ends: &Ends, owners: &Owners) -> Result<(), Refusal>
    requires { (Opened Sheet b.now starts.now) × RunEndTable Sheet b.now ends.now × Owners b.now owners.now }
    ensures { as_verdict result ≡ sheet_verdict b.now }
{
    names(b, starts, owners)?;
    let mut times = [0u8; MOST_NODES];
    let mut parents = [0u16; MOST_NODES];
    note_sheet(b, starts, &mut times, &mut parents);
    trees(b, starts, ends, owners, &times)?;
    last_checks(b, starts, ends, owners, &parents)
}

// Reads a sheet into tables that the caller lends: where its records start, where the runs of its functions end, and which
// function owns each node. Of a refused file only the refusal counts.
pub fn fill_sheet(
    b: &[u8],
    starts: &mut Starts,
    ends: &mut Ends,
    owners: &mut Owners,
) -> Result<(), Refusal>
    requires { LentSheetTables starts.old ends.old owners.old }
    ensures { ReadSheet b.now (as_verdict result) starts.new ends.new owners.new }
{
    file_shape(Layout::Sheet, b, starts)?;
    run_ends(Layout::Sheet, b, starts, ends);
    run_owners(b, ends, owners);
    checks(b, starts, ends, owners)
}

// Reads a sheet.
pub fn read_sheet(b: &[u8]) -> Result<SheetTables, Refusal>
    ensures { ReadsSheet b.now result }
{
    let mut starts = [0u16; MOST_RECORDS];
    let mut ends = [0u16; MOST_FUNCTIONS];
    let mut owners = [0u8; MOST_NODES];
    fill_sheet(b, &mut starts, &mut ends, &mut owners)?;
    Ok(SheetTables {
        starts,
        ends,
        owners,
    })
}
