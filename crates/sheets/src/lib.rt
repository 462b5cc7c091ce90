// The sheets of document 01, "Sheets to try", that are starred: specs/ has them, proofs/ proves them of the definitions.
// No functions.
#![tactic(auto)]
