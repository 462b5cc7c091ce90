// The place of each formal: its function and its position there, in one number.
ghost use Rattle.std.specs.Prelude.{◌≡◌, ◌+◌, ◌<◌, length};
ghost use Rattle.definitions.specs.Sizes.{most_formals};
ghost use Rattle.definitions.specs.Layouts.{functions, parameter_count};
ghost use Rattle.run.specs.FormalTable.{IndexedTranslation, Settable, PlacesSet, FormalTable};

use definitions::Layout;
use definitions::sizes::{MOST_FIELDS, MOST_FORMALS, Starts};
use file_layout::layout::{first_function, functions};
use file_records::records::{field, indexed};

pub(crate) type Places = [u16; MOST_FORMALS];

// How many positions a function has: a formal's place is its function times this, and its position.
pub(crate) const POSITIONS: u16 = MOST_FIELDS as u16;

// The parameter count of function `f` of a translation.
fn parameter_count(b: &[u8], index: &Starts, f: u16) -> u16
    requires { IndexedTranslation b.now index.now × (f < functions b.now) }
    ensures { result ≡ parameter_count b.now f }
{
    let r = first_function(Layout::Translation, b) + usize::from(f);
    field(indexed(b, index, r), 1)
}

// Sets the places of the formals of function `f`, of which there are `count`, from formal `first` on.
fn set_places(places: &mut Places, f: u16, count: u16, first: usize)
    requires { Settable places.old f count first }
    ensures { PlacesSet places.old f count first places.new }
{
    for j in 0..count {
        places[first + usize::from(j)] = POSITIONS * f + j;
    }
}

// Fills a table with the places of the formals of an accepted translation.
pub(crate) fn fill_places(places: &mut Places, b: &[u8], index: &Starts)
    requires { IndexedTranslation b.now index.now × (length places.old ≡ most_formals) }
    ensures { FormalTable b.now places.new }
{
    let count = functions(b);
    let mut first: usize = 0;
    for f in 0..count {
        let n = parameter_count(b, index, f);
        set_places(places, f, n, first);
        first += usize::from(n);
    }
}
