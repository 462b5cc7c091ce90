// The sheet_rules crate: the rules of a sheet's names, arguments, children, cases and patterns (document 01, "Order": 5, 7 and 6), and
// the tables that they look into.
#![tactic(auto)]

pub mod names;
pub mod patterns;
pub mod seen;
pub mod tree;
