// Typed sheets: specs/ has the relations and the reader of sheets before them, proofs/ the laws. No functions.
#![tactic(auto)]
