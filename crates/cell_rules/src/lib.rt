// The rules over cells, with remembering and without, against the rule over labels, for any translation file: specs/ has what cells stand
// for, proofs/ the laws. No functions.
#![tactic(auto)]
