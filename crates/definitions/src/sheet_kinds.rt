// The kinds of a sheet, with document 01's word for each. `specs/SheetKinds.antt` has the same numbers.
// "head"
pub const HEAD: u16 = 1;
// "constructor"
pub const CONSTRUCTOR: u16 = 2;
// "function"
pub const FUNCTION: u16 = 3;
// "constructor" and "function", with types
pub const TYPED_CONSTRUCTOR: u16 = 6;

pub const TYPED_FUNCTION: u16 = 7;
// "number"
pub const NUMBER: u16 = 16;
// "reading"
pub const READING: u16 = 17;
// "parameter"
pub const PARAMETER: u16 = 18;
// "pattern variable"
pub const PATTERN_VARIABLE: u16 = 19;
// "operator"
pub const OPERATOR: u16 = 20;
// "if"
pub const CONDITIONAL: u16 = 21;
// "call"
pub const CALL: u16 = 22;
// "build"
pub const BUILD: u16 = 23;
// "case"
pub const CASE: u16 = 24;
