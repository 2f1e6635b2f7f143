// Words, numbers and bytes one after the other.
ghost use Rattle.std.specs.Prelude.{[], ◌∷◌, map};
ghost use Rattle.script_writing.specs.Decimal.{decimal_text};
ghost use Rattle.script_writing.specs.Shown.{Written};
ghost use Rattle.script_writing.specs.Answers.{WrittenAll};
ghost use Rattle.script_writing.specs.Parts.{part_text};

use crate::bytes::put_operand;
use crate::numbers::put_decimal;

// Writes the bytes themselves.
pub fn put_text(out: &mut [u8], text: &[u8]) -> usize
    ensures { Written text.now result out.old out.new }
{
    if out.len() < text.len() {
        return 0;
    }
    wire::put_bytes(out, text)
}

// Writes words and a number: what most callers write, so with no list.
pub fn put_number(out: &mut [u8], words: &[u8], number: u64) -> usize
    ensures { WrittenAll (words.now ∷ decimal_text number ∷ []) result out.old out.new }
{
    let n = put_text(out, words);
    n + put_decimal(&mut out[n..], number)
}

// A part of an answer: words, or a number or bytes as an answer shows them.
#[derive(Clone, Copy, PartialEq, Eq, Debug)]
pub enum Part<'a> {
    Text(&'a [u8]),
    Number(u64),
    Bytes(&'a [u8]),
}

// Writes a part.
fn put_part(out: &mut [u8], part: Part<'_>) -> usize
    ensures { Written (part_text part.entry) result out.old out.new }
{
    match part {
        Part::Text(words) => put_text(out, words),
        Part::Number(number) => put_decimal(out, number),
        Part::Bytes(bytes) => put_operand(out, bytes),
    }
}

// Writes parts one after the other.
pub fn put_all(out: &mut [u8], parts: &[Part<'_>]) -> usize
    ensures { WrittenAll (map part_text parts.now) result out.old out.new }
{
    let mut at = 0;
    for &part in parts {
        at += put_part(&mut out[at..], part);
    }
    at
}
