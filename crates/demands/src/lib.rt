// The owner's three demands over what the calls promise: proofs/Demands.antt.
#![tactic(auto)]
