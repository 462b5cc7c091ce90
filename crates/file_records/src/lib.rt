// The file_records crate: records, and the index that reaches a record in constant time (document 01, "Files"), and what a sheet
// declares of its functions and constructors. Every read is total.
#![tactic(auto)]

pub mod declared_counts;
pub mod declared_fields;
pub mod records;
