// The parts of a file by the counts of its head (document 01, "Files").
#![tactic(auto)]

pub mod layout;
