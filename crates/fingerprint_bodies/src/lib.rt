// The bodies of the extensions that the reader reads, but for the transport parameters (`parse_extension` of fingerprint.rs): each is
// handed over as a part of the hello. A question over a whole body refuses one that is not in its form, and one whose list is too long.
// Document 01, "Reading" and questions 21 and 23.
#![tactic(auto)]

ghost use Rattle.std.specs.Prelude.{◌≡◌, ◌≤◌, List, ℕ, length};
ghost use Rattle.std.specs.Iterator.{at_most};
ghost use Rattle.std.proofs.Math.Option.{Option};
ghost use Rattle.wire.specs.Refusals.{told_number};
ghost use Rattle.fingerprint_bodies.specs.Entries.{Entry, bind, number_at, whole, at_least, all_entries, shown};
ghost use Rattle.fingerprint_bodies.specs.Forms.{word_list, one_entry, server_name, one_name, protocol_names, one_share, group_of, key_shares};
ghost use Rattle.fingerprint_bodies.specs.Code.{prefix_bytes, is_whole, count_asked, formed, within, NameAs, ShareAs, EntryAs, Gives};

use std::marker::PhantomData;
use wire::{Refusal, be16};

// The length before a list takes one byte or two.
#[derive(Clone, Copy, PartialEq, Eq, Debug)]
pub enum Prefix {
    OneByte,
    TwoBytes,
}

impl Prefix {
    pub fn bytes(self) -> usize
        ensures { result ≡ prefix_bytes self }
    {
        match self {
            Prefix::OneByte => 1,
            Prefix::TwoBytes => 2,
        }
    }
}

// The length at the body's front reaches exactly the body's end.
pub fn is_whole(body: &[u8], prefix: Prefix) -> bool
    ensures { result ≡ is_whole (prefix_bytes prefix) body.now }
{
    let n = body.len();
    match prefix {
        Prefix::OneByte => 1 <= n && usize::from(body[0]) == n - 1,
        Prefix::TwoBytes => 2 <= n && usize::from(be16(body)) == n - 2,
    }
}

// 000a, 000d with a length in two bytes, 002b with one in one byte: 16-bit numbers, one or more.
pub fn ask_words(body: &[u8], prefix: Prefix) -> Result<(), Refusal>
    ensures { told_number result ≡ within 64 (word_list (prefix_bytes prefix) body.now) }
{
    if is_whole(body, prefix) {
        return ask_count(body.len() - prefix.bytes());
    }
    Err(Refusal::ExtensionMalformed)
}

// So many bytes hold 16-bit numbers, from one to 64 of them.
fn ask_count(bytes: usize) -> Result<(), Refusal>
    ensures { told_number result ≡ count_asked bytes }
{
    if bytes < 2 {
        return Err(Refusal::ExtensionMalformed);
    }
    if bytes % 2 != 0 {
        return Err(Refusal::ExtensionMalformed);
    }
    if 128 < bytes {
        return Err(Refusal::ListTooLong);
    }
    Ok(())
}

// 0000: one entry of type 0, with a name of one byte or more.
pub fn ask_name(body: &[u8]) -> Result<(), Refusal>
    ensures { told_number result ≡ formed (server_name body.now) }
{
    if is_whole(body, Prefix::TwoBytes) {
        return ask_entry(&body[2..]);
    }
    Err(Refusal::ExtensionMalformed)
}

fn ask_entry(list: &[u8]) -> Result<(), Refusal>
    ensures { told_number result ≡ formed (one_entry list.now) }
{
    let n = list.len();
    if n < 4 {
        return Err(Refusal::ExtensionMalformed);
    }
    if list[0] != 0 {
        return Err(Refusal::ExtensionMalformed);
    }
    if is_whole(&list[1..], Prefix::TwoBytes) {
        return Ok(());
    }
    Err(Refusal::ExtensionMalformed)
}

// A name with its count in one byte, of one byte or more.
pub fn one_name(rest: &[u8]) -> Option<usize>
    ensures { NameAs result rest.now }
{
    let n = rest.len();
    if n < 2 {
        return None;
    }
    let length = usize::from(rest[0]);
    if length == 0 {
        return None;
    }
    if n - 1 < length {
        return None;
    }
    Some(length)
}

// An entry at the front of some bytes: what it is told by, and the bytes that it takes.
#[derive(Clone, Copy, PartialEq, Eq, Debug)]
pub struct Entry<T> {
    pub value: T,
    pub used: usize,
}

// A group, and its key of one byte or more with its count in two bytes.
pub fn one_share(rest: &[u8]) -> Option<Entry<u16>>
    ensures { ShareAs result rest.now }
{
    let n = rest.len();
    if n < 5 {
        return None;
    }
    let length = usize::from(be16(&rest[2..]));
    if length == 0 {
        return None;
    }
    if n - 4 < length {
        return None;
    }
    Some(Entry {
        value: be16(rest),
        used: 4 + length,
    })
}

// A kind of entry of a list. It is read off the front of some bytes, where it is whole.
pub trait Listed {
    type Value: Copy;

    ghost form: { List ℕ → Option (Entry Self.Value) };

    fn at_front(rest: &[u8]) -> Option<Entry<Self::Value>>
        ensures { EntryAs result form rest.now };
}

// A 16-bit number.
pub struct Word;

impl Listed for Word {
    type Value = u16;

    ghost form = { number_at 2 };

    fn at_front(rest: &[u8]) -> Option<Entry<u16>> {
        if rest.len() < 2 {
            return None;
        }
        Some(Entry {
            value: be16(rest),
            used: 2,
        })
    }
}

// A name, told by its length.
#[derive(Clone, Copy)]
pub struct Name;

impl Listed for Name {
    type Value = usize;

    ghost form = { shown length one_name };

    fn at_front(rest: &[u8]) -> Option<Entry<usize>> {
        let length = one_name(rest)?;
        Some(Entry {
            value: length,
            used: 1 + length,
        })
    }
}

// A key share, told by its group.
#[derive(Clone, Copy)]
pub struct Share;

impl Listed for Share {
    type Value = u16;

    ghost form = { shown group_of one_share };

    fn at_front(rest: &[u8]) -> Option<Entry<u16>> {
        one_share(rest)
    }
}

// The entries of a list one after the other, as long as a whole one stands at the front of the rest. Where nothing is left over, all were
// whole.
#[derive(Drop)]
pub struct Entries<'a, E> {
    pub rest: &'a [u8],
    kind: PhantomData<E>,
}

impl<'a, E: Listed> Entries<'a, E> {
    pub fn of(list: &'a [u8]) -> Entries<'a, E>
        ensures { result.rest.now ≡ list.now }
    {
        Entries {
            rest: list,
            kind: PhantomData,
        }
    }
}

pub type Names<'a> = Entries<'a, Name>;

impl<'a, E: Listed> Iterator for Entries<'a, E> {
    type Item = E::Value;

    ghost next_gives = { λ s r t. Gives E.form s.rest.now r t.rest.now };

    ghost remaining = { λ s. at_most (length s.rest.now) };

    #[inline(always)]
    fn next(&mut self) -> Option<E::Value> {
        let entry = E::at_front(self.rest)?;
        self.rest = &self.rest[entry.used..];
        Some(entry.value)
    }
}

// 0010: names, one or more, up to 16 of them.
pub fn ask_protocols(body: &[u8]) -> Result<(), Refusal>
    ensures { told_number result ≡ within 16 (protocol_names body.now) }
{
    ask_entries::<Name>(body, 1, 16)
}

// 0033: key shares, up to 64 of them; there may be none.
pub fn ask_shares(body: &[u8]) -> Result<(), Refusal>
    ensures { told_number result ≡ within 64 (key_shares body.now) }
{
    ask_entries::<Share>(body, 0, 64)
}

// A length in two bytes that reaches exactly the end, and after it entries, at least and at most so many.
fn ask_entries<E: Listed>(body: &[u8], least: usize, most: usize) -> Result<(), Refusal>
    ensures { told_number result ≡ within most (bind (whole 2 body.now) (λ l. bind (all_entries E.form l) (at_least least))) }
{
    if !is_whole(body, Prefix::TwoBytes) {
        return Err(Refusal::ExtensionMalformed);
    }
    // By `next`, since what is left over after the last is asked for.
    let mut entries = Entries::<E>::of(&body[2..]);
    let mut k: usize = 0;
    while let Some(_) = entries.next() {
        k += 1;
    }
    if !entries.rest.is_empty() {
        return Err(Refusal::ExtensionMalformed);
    }
    if k < least {
        return Err(Refusal::ExtensionMalformed);
    }
    if most < k {
        return Err(Refusal::ListTooLong);
    }
    Ok(())
}
