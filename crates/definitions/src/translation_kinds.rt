// The kinds of a translation, with document 01's word for each. `specs/TranslationKinds.antt` has the same numbers.
// "head"
pub const HEAD: u16 = 33;
// "function"
pub const FUNCTION: u16 = 34;
// "formal (a list of actuals)"
pub const FORMAL_LIST: u16 = 35;
// "number"
pub const NUMBER: u16 = 48;
// "reading"
pub const READING: u16 = 49;
// "formal (a node)"
pub const FORMAL: u16 = 50;
// "select"
pub const SELECT: u16 = 51;
// "operator"
pub const OPERATOR: u16 = 52;
// "if"
pub const CONDITIONAL: u16 = 53;
// "call"
pub const CALL: u16 = 54;
// "tuple"
pub const TUPLE: u16 = 55;
// "case"
pub const CASE: u16 = 56;
