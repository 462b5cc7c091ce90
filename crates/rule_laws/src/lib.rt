// Laws of the evaluation rule for any contexts: specs/ has what they ask and say, proofs/ the laws. No functions.
#![tactic(auto)]
