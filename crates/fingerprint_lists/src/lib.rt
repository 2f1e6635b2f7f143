// The lists of a report, read out of bodies that were found good, into arrays with counts: places past a count hold zeros.
#![tactic(auto)]

ghost use Rattle.std.specs.Prelude.{◌≡◌, map, ◌+◌, ◌≤◌, length, drop};
ghost use Rattle.fingerprint_bodies.specs.Entries.{or_empty, all_entries, front_entries};
ghost use Rattle.fingerprint_bodies.specs.Forms.{words_in, word_list, one_name, protocol_names, one_share, group_of, key_shares};
ghost use Rattle.fingerprint_bodies.specs.Code.{Found, Good, prefix_bytes};
ghost use Rattle.fingerprint_lists.specs.Arrays.{group, words_of, groups_of, spans_of, placed};

use fingerprint_bodies::{Entries, Listed, Names, Prefix, Share, Word};
use profiles::{ExtType, Group};
use wire::be16;

// A part of the hello: its first place, and its length. No slice: document 01 and the C layout want the range itself.
#[derive(Clone, Copy, PartialEq, Eq, Debug)]
pub struct Span {
    pub start: usize,
    pub length: usize,
}

// A list is an array with a count, for nothing here may use the heap. Its places past the count hold zeros, and it is copied: the
// library's `ArrayVec` has nothing in those places, and is no `Copy`.
#[derive(Clone, Copy)]
pub struct List<T, const N: usize> {
    pub items: [T; N],
    pub count: usize,
}

pub type Words = List<u16, 64>;

pub type Groups = List<Group, 64>;

pub type Types = List<ExtType, 64>;

pub type Spans = List<Span, 16>;

impl From<Words> for Groups {
    ghost from_gives = { λ w g. (g.items ≡ map group w.items) × (g.count ≡ w.count) };

    fn from(words: Words) -> Self {
        let mut items = [Group(0); 64];
        // A loop, and not `map` of the array: that took some 185 ns a list, where this is a plain copy.
        for (i, &number) in words.items.iter().enumerate() {
            items[i] = Group(number);
        }
        List {
            items,
            count: words.count,
        }
    }
}

// 16-bit numbers one after the other.
pub fn words_in(list: &[u8]) -> Words
    requires { length list.now ≤ 128 }
    ensures { result ≡ words_of (words_in list.now) }
{
    numbers::<Word>(list)
}

// The numbers that the entries of a list are told by. How many there are is part of the list, so they are counted, here and in `names`.
fn numbers<E: Listed<Value = u16>>(list: &[u8]) -> Words
    requires { length (front_entries E.form list.now) ≤ 64 }
    ensures { result ≡ words_of (front_entries E.form list.now) }
{
    let mut items = [0u16; 64];
    let mut count = 0;
    for number in Entries::<E>::of(list) {
        items[count] = number;
        count += 1;
    }
    List { items, count }
}

// The bytes after a count in `width` bytes, whatever that is; none where the extension is not there, whose list is as empty.
pub fn after(body: &[u8], width: usize) -> &[u8]
    ensures { result.now ≡ drop width body.now }
{
    body.get(width..).unwrap_or(&[])
}

pub fn word_list(body: &[u8], prefix: Prefix) -> Words
    requires { Good 64 (word_list (prefix_bytes prefix)) body.now }
    ensures { result ≡ words_of (or_empty (word_list (prefix_bytes prefix) body.now)) }
{
    words_in(after(body, prefix.bytes()))
}

pub fn group_list(body: &[u8]) -> Groups
    requires { Good 64 (word_list 2) body.now }
    ensures { result ≡ groups_of (or_empty (word_list 2 body.now)) }
{
    Groups::from(word_list(body, Prefix::TwoBytes))
}

pub fn key_share_groups(body: &[u8]) -> Groups
    requires { Good 64 key_shares body.now }
    ensures { result ≡ groups_of (map group_of (or_empty (key_shares body.now))) }
{
    Groups::from(numbers::<Share>(after(body, 2)))
}

// The parts of the hello that names are. `put_names` of fingerprint_layout goes over the same names, and writes bytes.
fn names(list: &[u8], start: usize) -> Spans
    requires { Found 16 (all_entries one_name list.now) × (start + length list.now ≤ 16386) }
    ensures { result ≡ spans_of (placed start (or_empty (all_entries one_name list.now))) }
{
    let mut items = [Span {
        start: 0,
        length: 0,
    }; 16];
    let mut count = 0;
    let mut at = start;
    for length in Names::of(list) {
        items[count] = Span {
            start: at + 1,
            length,
        };
        at += 1 + length;
        count += 1;
    }
    List { items, count }
}

// The body's first byte stands at `start` in the hello.
pub fn protocol_names(body: &[u8], start: usize) -> Spans
    requires { Good 16 protocol_names body.now × (start + length body.now ≤ 16384) }
    ensures { result ≡ spans_of (placed (start + 2) (or_empty (protocol_names body.now))) }
{
    names(after(body, 2), start + 2)
}
