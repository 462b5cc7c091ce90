// The kinds of a translation's records that are written by name, as words.
use definitions::translation_kinds;

pub const HEAD: usize = translation_kinds::HEAD as usize;

pub const FUNCTION: usize = translation_kinds::FUNCTION as usize;

pub const FORMAL_LIST: usize = translation_kinds::FORMAL_LIST as usize;

pub const NUMBER: usize = translation_kinds::NUMBER as usize;

pub const FORMAL: usize = translation_kinds::FORMAL as usize;

pub const SELECT: usize = translation_kinds::SELECT as usize;

pub const CALL: usize = translation_kinds::CALL as usize;
