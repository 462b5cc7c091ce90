// The rule that gives cells back, beside rules that keep them all: specs/ has it with the visits to actuals listed, and the rule over cells by
// serial number, proofs/ that these go in step. No functions.
#![tactic(auto)]
