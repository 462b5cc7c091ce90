// Sheets in canonical form: proofs/ has the laws of the form. No functions.
#![tactic(auto)]
