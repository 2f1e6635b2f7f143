// What the text of an answer is made of, on lent bytes. A writer writes over the front of an output and gives how many bytes it wrote;
// a text that does not fit is left out, and later bytes stay. So 0 is a count like any other and no sign for none: what comes after is
// still written.
// Here and in reports, show_marks, show_words, show_hello, show_frames, runner and crustdelta a caller adds the counts up and lends the
// rest of the output, as `n + put(&mut out[n..])`. With a `Writer { out, at }` each contract would say besides that it holds the same
// reference as before, where it stood and where it stands.
// No `write!`: onto a `&mut [u8]` it writes as much of a text as fits, and no clause says which bytes.
#![tactic(auto)]

pub mod bytes; // bytes in hex, and as an answer shows them
pub mod names; // names, as text where they can be
pub mod numbers; // numbers in decimal and in hex
pub mod texts; // words, numbers and bytes one after the other
