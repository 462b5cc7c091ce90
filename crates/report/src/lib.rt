// The line that the program prints for an answer (document 01, "The program reads a sheet on standard input ..").
#![tactic(auto)]

ghost use Rattle.report.specs.Promise.{WritesLine};

mod line_writer;
mod shown;

use crate::line_writer::LineWriter;
use answer::Answer;

// How many bytes the space for a line has. The longest line of a run, `number -2147483648 steps 4294967295 cells 65535`, has
// 48 with its end; whatever an `Answer` holds, its line fits the space.
pub const LINE_BYTES: usize = 64;

// The space that a line is written in.
pub type Line = [u8; LINE_BYTES];

// Writes the line of an answer, and answers its length. The space past the line stays as it was.
pub fn write_line(a: Answer, out: &mut Line) -> usize
    ensures { WritesLine a out.old result out.new }
{
    let mut writer = LineWriter {
        space: *out,
        length: 0,
    };
    writer.answer(a);
    *out = writer.space;
    writer.length
}
