// Laws of runs in turn (document 02, request 1), in proofs/. No functions.
#![tactic(auto)]
