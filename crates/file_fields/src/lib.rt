// Fields of a file's bytes, little-endian (document 01, "Files"). Every read and every write is total.
#![tactic(auto)]

pub mod bytes;
pub mod writing;
