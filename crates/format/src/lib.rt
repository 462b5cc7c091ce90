// The format crate: the readers of sheets and of translations (document 01, "Files" and "Order").
#![tactic(auto)]

pub mod sheet;
pub mod translation;
