// Laws of a sheet's meaning by call by name: an evaluator in specs/, its laws in proofs/. No functions.
#![tactic(auto)]
