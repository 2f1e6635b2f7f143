// The samples that document 01 marks T: one computed list, one theorem (proofs/Samples.antt). No code.
#![tactic(auto)]
