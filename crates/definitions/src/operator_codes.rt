// The codes of the operators, with document 01's word for each. `specs/OperatorCodes.antt` has the same numbers.
// "add"
pub const ADD: u16 = 0;
// "subtract"
pub const SUBTRACT: u16 = 1;
// "multiply"
pub const MULTIPLY: u16 = 2;
// "divide"
pub const DIVIDE: u16 = 3;
// "less"
pub const LESS: u16 = 4;
// "equal"
pub const EQUAL: u16 = 5;

// The greatest code.
pub const GREATEST: u16 = EQUAL;
