// The lines of a hello's listing: where each begins and ends, and what stands on it, for any bytes.
#![tactic(auto)]

pub mod by_number;
pub mod cursor;
pub mod grammar;
