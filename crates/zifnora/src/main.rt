// The program: it reads a sheet on standard input, translates and runs it without readings, and prints the answer's line
// (document 01, "The program reads a sheet on standard input ..").
#![tactic(auto)]

ghost use Rattle.zifnora.specs.Program.{ShowsAnswer};

use allowances::Allowances;
use definitions::sizes::{CELL_BYTES, SHEET_BYTES, TRANSLATION_BYTES};
use join::translate_and_run;
use report::{LINE_BYTES, Line, write_line};
use standard_input::read_full;
use std::io;

// One byte more than a sheet may have, so that a longer input is seen to be oversize.
const INPUT_BYTES: usize = SHEET_BYTES + 1;

// "1,000 steps, nesting 100, 100 cells".
const ALLOWANCES: Allowances = Allowances {
    steps: 1000,
    nesting: 100,
    cells: 100,
};

const LENT_BYTES: usize = ALLOWANCES.cells as usize * CELL_BYTES;

// Writes the line of a sheet's answer, and answers its length.
fn show_answer(sheet: &[u8], line: &mut Line) -> usize
    ensures { ShowsAnswer sheet.now line.old result line.new }
{
    let mut translation = [0u8; TRANSLATION_BYTES];
    let mut cells = [0u8; LENT_BYTES];
    let mut lent: &mut [u8] = &mut cells;
    let readings = [0i32; 0];
    let answer = translate_and_run(sheet, &mut translation, &readings, ALLOWANCES, &mut lent);
    write_line(answer, line)
}

fn main(rt: HostRuntime) -> io::Result<()> {
    let mut input = [0u8; INPUT_BYTES];
    let size = read_full(&mut rt.stdin(), &mut input)?;
    let mut line = [0u8; LINE_BYTES];
    let length = show_answer(&input[..size], &mut line);
    rt.write_all(&line[..length])
}
