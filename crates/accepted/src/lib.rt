// What acceptance of a file gives, as laws in proofs/. No functions.
#![tactic(auto)]
