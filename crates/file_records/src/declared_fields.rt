// The fields of what a sheet declares: its functions and its constructors.
ghost use Rattle.std.specs.Prelude.{◌≡◌, ◌+◌};
ghost use Rattle.definitions.specs.Records.{record_at, field};
ghost use Rattle.definitions.specs.Layouts.{first_item, first_function};
ghost use Rattle.definitions.specs.declared.Layout.TheVariants.{Sheet};
ghost use Rattle.file_records.specs.Index.{start_in};

use crate::records::{field, indexed_from};
use definitions::Layout;
use definitions::sizes::Starts;
use file_layout::layout::{first_function, first_item};

// Field `j` of the record that the index shows for function `f`.
pub fn function_field(b: &[u8], starts: &Starts, f: usize, j: usize) -> u16
    ensures { result ≡ field (record_at b.now (start_in starts.now (first_function Sheet b.now + f))) j }
{
    field(
        indexed_from(b, starts, first_function(Layout::Sheet, b), f),
        j,
    )
}

// Field `j` of the record that the index shows for constructor `k`.
pub fn constructor_field(b: &[u8], starts: &Starts, k: usize, j: usize) -> u16
    ensures { result ≡ field (record_at b.now (start_in starts.now (first_item Sheet b.now + k))) j }
{
    field(indexed_from(b, starts, first_item(Layout::Sheet, b), k), j)
}
