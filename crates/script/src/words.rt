// Lines: a command and its operands, parted by single spaces.
ghost use Rattle.script.specs.Words.{word_of, word_text, has_operands};
ghost use Rattle.std.specs.Prelude.{◌≡◌, ◌≤◌, length, IfSome};

use crate::reading::find;

// Where a word of a line stands.
#[derive(Clone, Copy, PartialEq, Eq, Debug)]
pub struct Word {
    pub start: usize,
    pub end: usize,
}

// Where the word stands that has k words before it.
pub fn find_word(line: &[u8], k: usize) -> Option<Word>
    ensures is { result ≡ word_of line.now k }
    ensures inside { IfSome result (λ w. (w.start ≤ w.end) × (w.end ≤ length line.now)) }
{
    let mut start = 0;
    for _ in 0..k {
        start = find(line, start, b' ')? + 1;
    }
    let end = find(line, start, b' ').unwrap_or(line.len());
    Some(Word { start, end })
}

// The bytes of the word that has k words before it; none where there is no such word. No Option: a word without bytes is no command, no number
// and no piece either.
pub fn word_at(line: &[u8], k: usize) -> &[u8]
    ensures { result.now ≡ word_text line.now (word_of line.now k) }
{
    line.split(|b| *b == b' ').nth(k).unwrap_or(&[])
}

// Whether the line has just so many operands after its command. So many are a u8, to which one can be added. Nothing is read after the
// first operand too many. Not inlined: a caller's large arrays are cleared where it begins and again where they are made, and only with
// little code in between does LLVM leave the first out.
#[inline(never)]
pub fn has_operands(line: &[u8], count: u8) -> bool
    ensures { result ≡ has_operands line.now count }
{
    let words = usize::from(count) + 1;
    line.split(|b| *b == b' ').take(words + 1).count() == words
}
