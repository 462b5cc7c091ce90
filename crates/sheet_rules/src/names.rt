// The references and argument counts of sheets.
ghost use Rattle.std.specs.Prelude.{◌≡◌, ◌-◌, true};
ghost use Rattle.definitions.specs.Records.{record_of, field_count};
ghost use Rattle.definitions.specs.Layouts.{first_node, due, owner_of};
ghost use Rattle.definitions.specs.References.{parameters, names_in_range, references};
ghost use Rattle.definitions.specs.SheetRules.{arguments_match, arguments};
ghost use Rattle.definitions.specs.Refusals.{as_verdict};
ghost use Rattle.definitions.specs.Verdicts.{◌and_then◌, first_of};
ghost use Rattle.definitions.specs.declared.Layout.TheVariants.{Sheet};
ghost use Rattle.file_records.specs.Index.{Opened};
ghost use Rattle.file_runs.specs.Runs.{Owners};
ghost use Rattle.sheet_rules.specs.Nodes.{NamesAt};

use definitions::refusals::{Reason, Refusal};
use definitions::sizes::{Owners, Starts};
use definitions::{Layout, sheet_kinds};
use file_layout::layout::{due, first_function, first_node, functions, items, nodes, readings};
use file_records::declared_counts::{arity, parameters};
use file_records::records::{field, field_count, indexed, kind};
use file_references::references::{children_below, constructors_below};

// The parameter count of the function that owns the node of record `r`.
fn owner_parameters(b: &[u8], starts: &Starts, owners: &Owners, r: usize) -> u16
    requires { NamesAt b.now starts.now owners.now r }
    ensures { result ≡ parameters b.now (owner_of Sheet b.now (r - first_node b.now)) }
{
    let first = first_node(b);
    if r < first {
        parameters(b, starts, usize::from(owners[0]))
    } else {
        parameters(b, starts, usize::from(owners[r - first]))
    }
}

// Whether what record `r` names besides nodes is there.
fn names_in_range(b: &[u8], starts: &Starts, owners: &Owners, r: usize, rec: &[u8]) -> bool
    requires { NamesAt b.now starts.now owners.now r × (rec.now ≡ record_of b.now r) }
    ensures { result ≡ names_in_range b.now r rec.now }
{
    let k = kind(rec);
    let x = field(rec, 0);
    if k == sheet_kinds::READING {
        return x < readings(b);
    }
    if k == sheet_kinds::PARAMETER {
        return x < owner_parameters(b, starts, owners, r);
    }
    if k == sheet_kinds::CALL {
        return x < functions(b);
    }
    if k == sheet_kinds::BUILD {
        return x < items(b);
    }
    if k == sheet_kinds::CASE {
        return constructors_below(rec, usize::from(items(b)));
    }
    true
}

// How many arguments a call or a build has.
fn argument_count(rec: &[u8]) -> usize
    ensures { result ≡ field_count rec.now - 1 }
{
    let n = field_count(rec);
    if n < 1 { 0 } else { n - 1 }
}

// Whether argument counts match, and `result` has no parameters.
fn arguments_match(b: &[u8], starts: &Starts, r: usize, rec: &[u8]) -> bool
    requires { Opened Sheet b.now starts.now × (names_in_range b.now r rec.now ≡ true) }
    ensures { result ≡ arguments_match b.now r rec.now }
{
    if r == first_function(Layout::Sheet, b) {
        return field(rec, 0) == 0;
    }
    let k = kind(rec);
    if k == sheet_kinds::CALL {
        return argument_count(rec)
            == usize::from(parameters(b, starts, usize::from(field(rec, 0))));
    }
    if k == sheet_kinds::BUILD {
        return argument_count(rec) == usize::from(arity(b, starts, usize::from(field(rec, 0))));
    }
    true
}

// The checks 5 and 7 of record `r`.
fn names_at(b: &[u8], starts: &Starts, owners: &Owners, r: usize) -> Result<(), Refusal>
    requires { NamesAt b.now starts.now owners.now r }
    ensures { as_verdict result ≡ (references b.now r and_then arguments b.now r) }
{
    let rec = indexed(b, starts, r);
    if !children_below(rec, usize::from(nodes(b))) {
        return Err(Refusal {
            reason: Reason::OutOfRange,
            place: r,
        });
    }
    if !names_in_range(b, starts, owners, r, rec) {
        return Err(Refusal {
            reason: Reason::OutOfRange,
            place: r,
        });
    }
    if !arguments_match(b, starts, r, rec) {
        return Err(Refusal {
            reason: Reason::BadArguments,
            place: r,
        });
    }
    Ok(())
}

// The checks 5 and 7 of every record.
pub fn names(b: &[u8], starts: &Starts, owners: &Owners) -> Result<(), Refusal>
    requires { Opened Sheet b.now starts.now × Owners b.now owners.now }
    ensures { as_verdict result ≡ first_of (due b.now) (λ r. references b.now r and_then arguments b.now r) }
{
    let count = due(b);
    for r in 0..count {
        names_at(b, starts, owners, r)?;
    }
    Ok(())
}
