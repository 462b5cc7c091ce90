// Equal trees of nodes: specs/ has the relations, proofs/ the laws. No functions.
#![tactic(auto)]
