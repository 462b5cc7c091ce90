// Tables of sums, and that of first formals.
ghost use Rattle.std.specs.Prelude.{ℕ};
ghost use Rattle.definitions.specs.Layouts.{functions};
ghost use Rattle.definitions.specs.References.{parameters};
ghost use Rattle.definitions.specs.declared.Layout.TheVariants.{Sheet};
ghost use Rattle.file_records.specs.Index.{Opened};
ghost use Rattle.translator.specs.Tables.{Gives, Summable, Sums};

use definitions::sizes::{MOST_FUNCTIONS, Starts};
use file_layout::layout::functions;
use file_records::declared_counts::parameters;

// The sum of a number of each function before each function, and last the sum of all.
pub(crate) type Sums = [u16; MOST_FUNCTIONS + 1];

// The table of sums of a number of each of `count` functions.
pub(crate) fn sums<F: Fn(usize) -> u16>(count: usize, number: F) -> Sums
    requires { Summable (F.pre number) (F.post number) count }
    ensures { (at : ℕ → ℕ) → Gives (F.post number) count at → Sums count at result }
{
    let mut sums = [0u16; MOST_FUNCTIONS + 1];
    let mut total: u16 = 0;
    for f in 0..count {
        total += number(f);
        sums[f + 1] = total;
    }
    sums
}

// The table of first formals.
pub(crate) fn first_formals(b: &[u8], starts: &Starts) -> Sums
    requires { Opened Sheet b.now starts.now }
    ensures { Sums (functions b.now) (parameters b.now) result }
{
    sums(usize::from(functions(b)), |f| parameters(b, starts, f))
}
