// What runs of a translated sheet answer, against the sheet's own answer: specs/ has the relations, proofs/ the laws. No functions.
#![tactic(auto)]
