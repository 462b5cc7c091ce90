// The counts and types of a sheet's constructors and functions with types.
ghost use Rattle.std.specs.Prelude.{◌≡◌};
ghost use Rattle.definitions.specs.Shape.{types_right, typed_constructor_counts};

use definitions::sizes::{MOST_FIELDS, MOST_TYPES};
use file_records::records::{field, field_count, field_inside};

// Whether a record has `n` fields, of which those from field 2 on are types.
pub(crate) fn types_right(rec: &[u8], n: usize) -> bool
    ensures { result ≡ types_right rec.now n }
{
    if field_count(rec) != n {
        return false;
    }
    if n < 2 {
        return true;
    }
    let count = n - 2;
    for i in 0..count {
        if MOST_TYPES < usize::from(field_inside(rec, 2 + i)) {
            return false;
        }
    }
    true
}

// A typed constructor's counts.
#[tactic(auto, unfolding(definitions::specs::Shape::typed_constructor_counts, definitions::specs::Ranges::within))]
pub(crate) fn typed_constructor_counts(rec: &[u8]) -> bool
    ensures { result ≡ typed_constructor_counts rec.now }
{
    let n = usize::from(field(rec, 0));
    let own = usize::from(field(rec, 1));
    n <= MOST_FIELDS && 1 <= own && own <= MOST_TYPES && types_right(rec, 2 + n)
}
