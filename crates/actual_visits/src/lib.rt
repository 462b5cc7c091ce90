// The visits to actuals that a run of a translated sheet makes: at most one for each position of each cell made, given back or not. specs/
// has lists without repetition, proofs/ the laws, which are of the rule over cells by serial number. No functions.
#![tactic(auto)]
