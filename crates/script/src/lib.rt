// The text of bench scripts, on lent bytes. The definitions that the contracts cite stand in specs/, a rule of the script
// language each.
#![tactic(auto)]

pub mod input; // the lines of a script, gathered from what is read chunk by chunk
pub mod reading; // numbers and the pieces of byte operands
pub mod words; // the words of a line
