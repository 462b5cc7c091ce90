// The evaluation rule over lent bytes, and that it is the rule that gives cells back: specs/ has the rule and what holds of lent bytes, proofs/ the laws. No functions.
#![tactic(auto)]
