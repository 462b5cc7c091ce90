// The sizes of document 01 and of the requests in document 02, and the types of the tables that hold one entry for each of so
// many. `specs/Sizes.antt` has the same numbers.

// "Sheet, at most 32,768 bytes", "Translation, at most 40,960 bytes".
pub const SHEET_BYTES: usize = 32768;

pub const TRANSLATION_BYTES: usize = 40960;

// "readings I 0..32", "constructors K 0..64", "functions F 1..64", "nodes N 1..1,024", "formals P 0..512".
pub const MOST_READINGS: usize = 32;

pub const MOST_CONSTRUCTORS: usize = 64;

pub const MOST_FUNCTIONS: usize = 64;

pub const MOST_NODES: usize = 1024;

pub const MOST_FORMALS: usize = 512;

// "arity 0..8", "parameters 0..8".
pub const MOST_FIELDS: usize = 8;

// Document 02, request 11: "Types are 0 (number) and 1..64".
pub const MOST_TYPES: usize = 64;

// The records of the largest translation: one head, 64 functions, 512 formals, 1,024 nodes. A sheet has fewer.
pub const MOST_RECORDS: usize = 1601;

// "nesting 1..1,024".
pub const MOST_NESTING: u32 = 1024;

// Document 02, request 7: "The cell ceiling becomes 960", "A cell becomes 68 bytes", "entries by position of 8 bytes".
pub const MOST_CELLS: u32 = 960;

pub const CELL_BYTES: usize = 68;

pub const ENTRY_BYTES: usize = 8;

// "Record kind 64, 20 bytes".
pub const ANSWER_BYTES: usize = 20;

// Document 02, request 10: "The cab shows 6 bytes".
pub const VIEW_BYTES: usize = 6;

// Document 02, request 1: "0 to 16 reading rows".
pub const MOST_ROWS: u32 = 16;

// Document 02, request 12: "more than 1,024 values".
pub const MOST_VALUES: u64 = 1024;

// Where each record starts.
pub type Starts = [u16; MOST_RECORDS];

// The first node after the run of each function.
pub type Ends = [u16; MOST_FUNCTIONS];

// The function that owns each node.
pub type Owners = [u8; MOST_NODES];

// A number for each node.
pub type OfNodes = [u16; MOST_NODES];

// A number for each function.
pub type OfFunctions = [u16; MOST_FUNCTIONS];
