// The table of kinds: least, step and greatest length, by kind. A number that is no kind allows no length.
#![tactic(auto)]

ghost use Rattle.std.specs.Prelude.{◌≡◌};
ghost use Rattle.definitions.specs.Kinds.{row_of, allows};
ghost use Rattle.file_kinds.specs.Rows.{RowsOf};

// Kinds are below this number.
const KINDS: usize = 57;

// A row: least length, step and greatest length.
type Row = [u16; 3];

// The row of a number that is no kind: no length is from 1 to 0.
const NONE: Row = [1, 1, 0];

// The rows by kind: document 01's, and 6 and 7 of document 02, request 11.
const ROWS: Rows = [
    NONE,
    [12, 2, 12], // 1: head
    [6, 2, 6], // 2: constructor
    [8, 2, 8], // 3: function
    NONE,
    NONE,
    [8, 2, 24], // 6: constructor with types
    [10, 2, 26], // 7: function with types
    NONE,
    NONE,
    NONE,
    NONE,
    NONE,
    NONE,
    NONE,
    NONE,
    [8, 2, 8], // 16: number
    [6, 2, 6], // 17: reading
    [6, 2, 6], // 18: parameter
    [6, 2, 6], // 19: pattern variable
    [10, 2, 10], // 20: operator
    [10, 2, 10], // 21: if
    [6, 2, 22], // 22: call
    [6, 2, 22], // 23: build
    [10, 4, 262], // 24: case
    NONE,
    NONE,
    NONE,
    NONE,
    NONE,
    NONE,
    NONE,
    NONE,
    [12, 2, 12], // 33: head
    [8, 2, 8], // 34: function
    [4, 2, 2052], // 35: formal (a list of actuals)
    NONE,
    NONE,
    NONE,
    NONE,
    NONE,
    NONE,
    NONE,
    NONE,
    NONE,
    NONE,
    NONE,
    NONE,
    [8, 2, 8], // 48: number
    [6, 2, 6], // 49: reading
    [6, 2, 6], // 50: formal
    [8, 2, 8], // 51: select
    [10, 2, 10], // 52: operator
    [10, 2, 10], // 53: if
    [8, 2, 8], // 54: call
    [6, 2, 22], // 55: tuple
    [10, 4, 262], // 56: case
];

// The rows of the kinds, for a caller that lends them on.
pub type Rows = [Row; KINDS];

pub fn rows() -> Rows
    ensures { RowsOf result }
{
    ROWS
}

// Whether a kind allows a length.
pub fn allows(rows: &Rows, kind: u16, length: u16) -> bool
    requires { RowsOf rows.now }
    ensures { result ≡ allows (row_of kind) length }
{
    let Some(&[least, step, greatest]) = rows.get(usize::from(kind)) else {
        return false;
    };
    if length < least || greatest < length {
        return false;
    }
    // A division by the step, for each record of a file, would take longer than the test.
    if step == 4 {
        return (length - least) % 4 == 0;
    }
    (length - least) % 2 == 0
}
