// The body of the transport parameters (extension 0039; RFC 9000, section 18): ids, each with a length and a value. Document 01,
// questions 21 to 23 for this body.
#![tactic(auto)]

ghost use Rattle.std.specs.Prelude.{◌≡◌, ◌%◌, get_or, set, true, false};
ghost use Rattle.std.proofs.Math.Option.{some};
ghost use Rattle.wire.specs.Sums.{distinct};
ghost use Rattle.fingerprint_bodies.specs.Entries.{or_empty, shown};
ghost use Rattle.fingerprint_bodies.specs.Forms.{one_parameter, id_of, transport_parameters};
ghost use Rattle.fingerprint_parameters.specs.Code.{ParameterAs, short_of, ids_of, Kept, ids_in, AskedIds};

use fingerprint_bodies::{Entries, Entry, Listed};
use fingerprint_order::Rise;
use wire::Refusal;

// A parameter, told by its id.
#[derive(Clone, Copy)]
pub struct Parameter;

impl Listed for Parameter {
    type Value = u64;

    ghost form = { shown id_of one_parameter };

    fn at_front(rest: &[u8]) -> Option<Entry<u64>> {
        one_parameter(rest)
    }
}

pub type Parameters<'a> = Entries<'a, Parameter>;

// Id and length in varints of any width, and a value of that length.
fn any_parameter(rest: &[u8]) -> Option<Entry<u64>>
    ensures { ParameterAs result rest.now }
{
    let id = varint::read(rest).ok()?;
    let at = id.width;
    let length = varint::read(&rest[at..]).ok()?;
    let head = at + length.width;
    if ((rest.len() - head) as u64) < length.value {
        return None;
    }
    Some(Entry {
        value: id.value,
        used: head + length.value as usize,
    })
}

// The same, where most parameters have an id and a length of one byte each: these take the short way (docs/DECISIONS.md has its figures). The long way is called at two
// places, and so is not inlined; what is left is small enough to be.
pub fn one_parameter(rest: &[u8]) -> Option<Entry<u64>>
    ensures { ParameterAs result rest.now }
{
    if rest.len() < 2 {
        return any_parameter(rest);
    }
    let id = rest[0];
    let length = rest[1];
    if (id < 64) & (length < 64) {
        return short_parameter(rest.len() - 2, id, length);
    }
    any_parameter(rest)
}

// A parameter whose id and length are one byte each, with so many bytes left after them.
fn short_parameter(left: usize, id: u8, length: u8) -> Option<Entry<u64>>
    ensures { result ≡ short_of left id length }
{
    let length = usize::from(length);
    if left < length {
        return None;
    }
    Some(Entry {
        value: u64::from(id),
        used: 2 + length,
    })
}

// Counts the parameters, and keeps the ids of the first, as many as there is room for; none where one is cut. By `next` and a count, since
// both what is left over and how many there were is asked for.
fn read_ids(body: &[u8], ids: &mut [u64]) -> Option<usize>
    ensures { Kept (ids_of body.now) result ids.old ids.new }
{
    let room = ids.len();
    // Each is counted, also past the room, and what is left over is asked for after the last.
    let mut parameters = Parameters::of(body);
    let mut k = 0;
    while let Some(id) = parameters.next() {
        if k < room {
            ids[k] = id;
        }
        k += 1;
    }
    if parameters.rest.is_empty() {
        return Some(k);
    }
    None
}

// Which rests by 64 numbers have left so far: a number is looked up among those before it only where one of them left the same rest.
#[derive(Clone, Copy)]
pub struct Marks {
    pub rests: [bool; 64],
}

impl Marks {
    pub fn has(&self, number: u64) -> bool
        ensures { result ≡ get_or self.now.rests (number % 64) false }
    {
        self.rests[rest_of(number)]
    }

    pub fn add(&mut self, number: u64)
        ensures { self.new.rests ≡ set self.old.rests (number % 64) true }
    {
        self.rests[rest_of(number)] = true;
    }
}

fn rest_of(number: u64) -> usize
    ensures { result ≡ number % 64 }
{
    (number % 64) as usize
}

// No two ids are equal.
fn all_new(ids: &[u64]) -> bool
    ensures { result ≡ distinct ids.now }
{
    let mut marks = Marks { rests: [false; 64] };
    for (i, id) in ids.iter().enumerate() {
        if marks.has(*id) && ids[..i].contains(id) {
            return false;
        }
        marks.add(*id);
    }
    true
}

// No id stands twice in the body: each is looked for among those after it.
fn each_among_later(body: &[u8]) -> bool
    requires { transport_parameters body.now ≡ some (or_empty (transport_parameters body.now)) }
    ensures { result ≡ distinct (ids_in body.now) }
{
    let mut parameters = Parameters::of(body);
    while let Some(id) = parameters.next() {
        if Parameters::of(parameters.rest).any(|later| later == id) {
            return false;
        }
    }
    true
}

// No id stands twice in the body, however many there are. A hello has room for 8192 at most: the order of their indices tells, or where it
// says nothing, the ids sorted. Of more, each is looked for among those after it. Not inlined: else every body would be asked in a frame
// that has room for so many ids.
#[inline(never)]
pub fn ids_new(body: &[u8]) -> bool
    requires { transport_parameters body.now ≡ some (or_empty (transport_parameters body.now)) }
    ensures { result ≡ distinct (ids_in body.now) }
{
    let mut ids = [0u64; 8192];
    if let Some(n) = read_ids(body, &mut ids) {
        if n <= 8192 {
            return match fingerprint_order::in_order(&ids, n) {
                Rise::Rising => true,
                Rise::Twice => false,
                Rise::Unsorted => fingerprint_order::all_new(&mut ids[..n]),
            };
        }
    }
    each_among_later(body)
}

// Body in its form? Ids all new? At most 64 of them? Where there is no "no", this is their count, and they stand at the front of the
// array.
pub fn ask_parameters(body: &[u8], ids: &mut [u64; 64]) -> Result<usize, Refusal>
    ensures { AskedIds body.now result ids.old ids.new }
{
    let k = read_ids(body, ids).ok_or(Refusal::ExtensionMalformed)?;
    if k <= 64 {
        if all_new(&ids[..k]) {
            return Ok(k);
        }
        return Err(Refusal::ParameterTwice);
    }
    if ids_new(body) {
        return Err(Refusal::ListTooLong);
    }
    Err(Refusal::ParameterTwice)
}
