// What standard error says of a call of the system that failed.
use std::io::Write;
use std::{io, str};

// Writes a line to standard error: what failed, a colon and the error's text. Where that cannot be written either, nothing more is done.
pub fn fail(rt: &impl Eprint, what: &str, error: &io::Error) {
    let mut text = io::Cursor::new([0u8; 256]);
    let _ = write!(text, "{error}");
    let end = text.position() as usize;
    let text = text.into_inner();
    let reason = reason(text.get(..end).unwrap_or(&text));
    let _ = eprintln!(rt; "{what}: {reason}");
}

// The text of an error, without the number that std puts behind it.
fn reason(text: &[u8]) -> &str {
    let text = str::from_utf8(text).unwrap_or("");
    match text.split_once(" (os error ") {
        Some((words, _)) => words,
        None => text,
    }
}
