// Laws of the definitions, for the crates above: proofs/.
#![tactic(auto)]
