// Frames of QUIC's Initial packets (`reassemble_crypto` of fingerprint.rs; RFC 9000, sections 2.2 and 19.6): one frame read, all frames
// joined to a stream, and a hello cut into frames. Document 01, questions 10 to 15 and 24 to 26.
#![tactic(auto)]

pub mod cutting;
pub mod joining;
pub mod reading;
