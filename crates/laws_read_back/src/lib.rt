// What the maker makes, the reader reads back (proofs/ReadBack.antt). No code.
#![tactic(auto)]
