// The translation of an accepted sheet, read back as a translation file: laws in proofs/. No functions.
#![tactic(auto)]
