// Contexts as cells in lent bytes, and the listing of a context (document 01, "Run" and "Context listing").
#![tactic(auto)]

pub mod cell;
pub mod entry;
pub mod listing;
