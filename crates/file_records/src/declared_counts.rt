// The counts that a sheet declares: the parameters of its functions and the arities of its constructors.
ghost use Rattle.std.specs.Prelude.{◌≡◌, ◌+◌};
ghost use Rattle.definitions.specs.Records.{record_at, field};
ghost use Rattle.definitions.specs.Layouts.{first_item, first_function};
ghost use Rattle.definitions.specs.declared.Layout.TheVariants.{Sheet};
ghost use Rattle.file_records.specs.Index.{start_in};

use crate::declared_fields::{constructor_field, function_field};
use definitions::sizes::Starts;

// A function's parameter count: field 0 of the record that the index shows for it.
pub fn parameters(b: &[u8], starts: &Starts, f: usize) -> u16
    ensures { result ≡ field (record_at b.now (start_in starts.now (first_function Sheet b.now + f))) 0 }
{
    function_field(b, starts, f, 0)
}

// A constructor's arity: field 0 of the record that the index shows for it.
pub fn arity(b: &[u8], starts: &Starts, k: usize) -> u16
    ensures { result ≡ field (record_at b.now (start_in starts.now (first_item Sheet b.now + k))) 0 }
{
    constructor_field(b, starts, k, 0)
}
