// Translating a sheet and running it, in one call.
#![tactic(auto)]

ghost use Rattle.std.specs.Prelude.{◌≡◌};
ghost use Rattle.definitions.specs.Refusals.{as_written};
ghost use Rattle.join.specs.Promise.{join_length, Joins};

use allowances::Allowances;
use answer::Answer;
use definitions::refusals::{Reason, Refusal, require};
use file_layout::layout;
use run::run;
use translation_length::translated_length;
use translator::translate;

// How long the translation of a sheet will be, or what the sheet, the readings or the allowances are refused for: the sheet's own
// refusals, then 8, 9 and 10.
fn check_join(
    sheet: &[u8],
    room: usize,
    readings: &[i32],
    allowances: Allowances,
    lent: usize,
) -> Result<usize, Refusal>
    ensures { as_written result ≡ join_length sheet.now room readings.now allowances.nesting allowances.cells lent }
{
    let size = translated_length(sheet, room)?;
    let width = usize::from(layout::readings(sheet));
    require(readings.len() == width, Reason::BadReadings)?;
    require(allowances.fit(lent), Reason::BadAllowance)?;
    Ok(size)
}

// Translates a sheet into a lent buffer and runs the translation on a list of readings, with allowances of steps, nesting and
// cells, in lent cells. Every refusal is known before the first byte is written. The slice behind `cells` stays the same.
pub fn translate_and_run(
    sheet: &[u8],
    out: &mut [u8],
    readings: &[i32],
    allowances: Allowances,
    cells: &mut &mut [u8],
) -> Answer
    ensures { Joins sheet.now out.old readings.now allowances.steps allowances.nesting allowances.cells cells.old.now result
        out.new cells.new.now
        × (cells.new.ref_ptr ≡ cells.old.ref_ptr) }
{
    match check_join(sheet, out.len(), readings, allowances, cells.len()) {
        Err(refusal) => Answer::from(refusal),
        Ok(size) => {
            let _ = translate(sheet, out);
            run(&out[..size], readings, allowances, cells)
        }
    }
}
