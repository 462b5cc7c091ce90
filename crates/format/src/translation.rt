// The reader of translations.
ghost use Rattle.std.specs.Prelude.{◌≡◌, ◌≤◌, ◌<◌};
ghost use Rattle.definitions.specs.TranslationKinds;
ghost use Rattle.definitions.specs.Records.{kind_of};
ghost use Rattle.definitions.specs.Layouts.{due};
ghost use Rattle.definitions.specs.References.{names_in_range, references};
ghost use Rattle.definitions.specs.Refusals.{as_verdict};
ghost use Rattle.definitions.specs.Verdicts.{first_of};
ghost use Rattle.definitions.specs.declared.Layout.TheVariants.{Translation};
ghost use Rattle.file_records.specs.Index.{Opened};
ghost use Rattle.format.specs.Readers.{LentTables, ReadTranslation};
ghost use Rattle.format.specs.Tables.{ReadsTranslation};

use definitions::refusals::{Reason, Refusal};
use definitions::sizes::{Ends, MOST_FUNCTIONS, MOST_RECORDS, Starts};
use definitions::{Layout, translation_kinds};
use file_layout::layout::{due, functions, items, nodes, readings};
use file_records::records::{field, indexed, kind};
use file_references::references::children_below;
use file_runs::run_ends;
use file_shape::file_shape;

// The tables of an accepted translation: where its records start, and where the runs of its functions end.
#[derive(Clone, Copy)]
pub struct TranslationTables {
    pub starts: Starts,
    pub ends: Ends,
}

// Whether what a record names besides nodes is there.
fn names_in_range(b: &[u8], r: usize, rec: &[u8]) -> bool
    requires { TranslationKinds.head ≤ kind_of rec.now }
    ensures { result ≡ names_in_range b.now r rec.now }
{
    let k = kind(rec);
    if k == translation_kinds::READING {
        return field(rec, 0) < readings(b);
    }
    if k == translation_kinds::CALL {
        return field(rec, 1) < functions(b);
    }
    if k == translation_kinds::FORMAL {
        return field(rec, 0) < items(b);
    }
    true
}

// The check 5 of record `r`.
fn references_at(b: &[u8], starts: &Starts, r: usize) -> Result<(), Refusal>
    requires { Opened Translation b.now starts.now × (r < due b.now) }
    ensures { as_verdict result ≡ references b.now r }
{
    let rec = indexed(b, starts, r);
    if !children_below(rec, usize::from(nodes(b))) {
        return Err(Refusal {
            reason: Reason::OutOfRange,
            place: r,
        });
    }
    if !names_in_range(b, r, rec) {
        return Err(Refusal {
            reason: Reason::OutOfRange,
            place: r,
        });
    }
    Ok(())
}

// The check 5 of every record.
fn references(b: &[u8], starts: &Starts) -> Result<(), Refusal>
    requires { Opened Translation b.now starts.now }
    ensures { as_verdict result ≡ first_of (due b.now) (references b.now) }
{
    let count = due(b);
    for r in 0..count {
        references_at(b, starts, r)?;
    }
    Ok(())
}

// Reads a translation into tables that the caller lends: where its records start, and where the runs of its functions end.
// Of a refused file only the refusal counts.
pub fn fill_translation(b: &[u8], starts: &mut Starts, ends: &mut Ends) -> Result<(), Refusal>
    requires { LentTables starts.old ends.old }
    ensures { ReadTranslation b.now (as_verdict result) starts.new ends.new }
{
    file_shape(Layout::Translation, b, starts)?;
    run_ends(Layout::Translation, b, starts, ends);
    references(b, starts)
}

// Reads a translation.
pub fn read_translation(b: &[u8]) -> Result<TranslationTables, Refusal>
    ensures { ReadsTranslation b.now result }
{
    let mut starts = [0u16; MOST_RECORDS];
    let mut ends = [0u16; MOST_FUNCTIONS];
    fill_translation(b, &mut starts, &mut ends)?;
    Ok(TranslationTables { starts, ends })
}
