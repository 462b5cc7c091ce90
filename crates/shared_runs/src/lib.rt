// Runs of translations by two labellings, of one sheet or of two with equal trees, go alike: specs/ has the relations, proofs/ the laws. No functions.
#![tactic(auto)]
