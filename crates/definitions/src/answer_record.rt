// The answer record of document 01, "Record kind 64, 20 bytes": its length and kind, and where each field stands.
// `specs/AnswerRecord.antt` has the record.
use crate::sizes::ANSWER_BYTES;

pub const LENGTH: u16 = ANSWER_BYTES as u16;

pub const KIND: u16 = 64;

// The length and the kind.
pub const LENGTH_PLACE: usize = 0;

pub const KIND_PLACE: usize = 2;

// "outcome .., value (4 bytes ..), steps (4), node, context, cells made".
pub const OUTCOME_PLACE: usize = 4;

pub const VALUE_PLACE: usize = 6;

pub const STEPS_PLACE: usize = 10;

pub const NODE_PLACE: usize = 14;

pub const CONTEXT_PLACE: usize = 16;

pub const CELLS_PLACE: usize = 18;
