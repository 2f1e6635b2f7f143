// Lists of numbers: a label, and the numbers one after the other.
ghost use Rattle.std.specs.Prelude.{ℕ, List, ◌∷◌, map};
ghost use Rattle.script_writing.specs.Shown.{Written};
ghost use Rattle.script_writing.specs.Answers.{WrittenAll};
ghost use Rattle.script_writing.specs.Hex.{word_text, id_text};
ghost use Rattle.fingerprint.specs.Code.{type_number};
ghost use Rattle.fingerprint.specs.InRange.{group_number};

use profiles::{ExtType, Group};
use script_writing::numbers::{put_id, put_word};
use script_writing::texts::put_text;

// A number in a list: a 16-bit number, a type, a group or a parameter id.
pub trait Entry: Copy {
    ghost text: { Self → List ℕ };

    // Writes the number.
    fn put(self, out: &mut [u8]) -> usize
        ensures { Written (text self) result out.old out.new };
}

impl Entry for u16 {
    ghost text = { word_text };

    fn put(self, out: &mut [u8]) -> usize {
        put_word(out, self)
    }
}

impl Entry for ExtType {
    ghost text = { λ t. word_text (type_number t) };

    fn put(self, out: &mut [u8]) -> usize {
        put_word(out, self.0)
    }
}

impl Entry for Group {
    ghost text = { λ g. word_text (group_number g) };

    fn put(self, out: &mut [u8]) -> usize {
        put_word(out, self.0)
    }
}

impl Entry for u64 {
    ghost text = { id_text };

    fn put(self, out: &mut [u8]) -> usize {
        put_id(out, self)
    }
}

// Writes a list after its label.
pub fn put_list<T: Entry>(out: &mut [u8], label: &[u8], items: &[T]) -> usize
    ensures { WrittenAll (label.now ∷ map T.text items.now) result out.old out.new }
{
    let mut at = put_text(out, label);
    for &item in items {
        at += item.put(&mut out[at..]);
    }
    at
}
