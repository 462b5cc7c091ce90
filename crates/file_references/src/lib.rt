// The file_references crate: the nodes and constructors that a node's record names (document 01, "Files" and "Order").
#![tactic(auto)]

pub mod references;
