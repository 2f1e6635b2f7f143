// The walk over the extensions: it only checks, and notes where the bodies stand that the report reads; the parameter ids, all of which
// question 22 asks for, are read once and kept. Questions 20 to 23, for one extension before the next.
ghost use Rattle.std.specs.Iterator.{at_most};
ghost use Rattle.std.specs.Prelude.{◌-◌, ◌%◌, ◌≤◌, ◌≡◌, length, take, replicate};
ghost use Rattle.wire.specs.Sums.{member};
ghost use Rattle.fingerprint_bodies.specs.Body.{kind};
ghost use Rattle.fingerprint_parameters.specs.Code.{Marked};
ghost use Rattle.fingerprint.specs.Code as code;
ghost use Rattle.fingerprint.specs.Code.{meant, kind_at, note_of, HeaderFound, HeaderAs, GivesHeader, BodyAsked, StepAs, SurveyAs};

use fingerprint_bodies::Prefix;
use fingerprint_lists::Span;
use fingerprint_parameters::Marks;
use wire::{Refusal, be16};

// What kind of body an extension has, by its type: which list is read from it.
#[derive(Clone, Copy, PartialEq, Eq, Debug)]
pub enum Kind {
    Name,
    Groups,
    Algorithms,
    Protocols,
    Versions,
    Shares,
    Parameters,
    Other,
}

// By an extension's type, with the numbers that document 01 has for it (question 21).
impl From<u16> for Kind {
    ghost from_gives = { λ t k. meant k ≡ kind t };

    fn from(t: u16) -> Kind {
        match t {
            0x0000 => Kind::Name,
            0x000a => Kind::Groups,
            0x000d => Kind::Algorithms,
            0x0010 => Kind::Protocols,
            0x002b => Kind::Versions,
            0x0033 => Kind::Shares,
            0x0039 => Kind::Parameters,
            _ => Kind::Other,
        }
    }
}

impl Kind {
    // The place in a survey's bodies; the last is for those that are not read.
    pub fn slot(self) -> usize
        ensures { result ≡ code.slot (meant self) }
    {
        self as usize
    }

    // The kind of a place in a survey's bodies, and of any other as of the last.
    fn at(place: usize) -> Kind
        ensures { meant result ≡ kind_at place }
    {
        match place {
            0 => Kind::Name,
            1 => Kind::Groups,
            2 => Kind::Algorithms,
            3 => Kind::Protocols,
            4 => Kind::Versions,
            5 => Kind::Shares,
            6 => Kind::Parameters,
            _ => Kind::Other,
        }
    }
}

// What the walk found: how many extensions there are, for each kind of body the part of the hello that holds it, empty where there is
// none (what is read of an empty body and of none is the same), and how many parameter ids there are. Types and ids stand in lent arrays, for there is no heap, and these are their counts.
#[derive(Clone, Copy)]
pub struct Survey {
    pub count: usize,
    pub bodies: [Span; 8],
    pub id_count: usize,
}

impl Survey {
    // The part of the hello that holds the body of a kind.
    pub fn body(&self, kind: Kind) -> Span
        ensures { result ≡ note_of self.now (meant kind) }
    {
        self.bodies[kind.slot()]
    }
}

// A header: the extension's type and its body's ends.
#[derive(Clone, Copy, PartialEq, Eq, Debug)]
pub struct Header {
    pub ext_type: u16,
    pub start: usize,
    pub end: usize,
}

// What a body was found to be: its kind, and how many parameter ids it has.
#[derive(Clone, Copy, PartialEq, Eq, Debug)]
pub struct Step {
    pub kind: Kind,
    pub ids: usize,
}

// The questions of a body, by its kind: each goes to its own reader. Question 22 reads all parameter ids: they are left in the array, and
// this is their count.
pub fn ask_body(kind: Kind, body: &[u8], ids: &mut [u64; 64]) -> Result<usize, Refusal>
    ensures { BodyAsked (meant kind) body.now result ids.old ids.new }
{
    match kind {
        Kind::Name => fingerprint_bodies::ask_name(body)?,
        Kind::Groups | Kind::Algorithms => fingerprint_bodies::ask_words(body, Prefix::TwoBytes)?,
        Kind::Protocols => fingerprint_bodies::ask_protocols(body)?,
        Kind::Versions => fingerprint_bodies::ask_words(body, Prefix::OneByte)?,
        Kind::Shares => fingerprint_bodies::ask_shares(body)?,
        Kind::Parameters => return fingerprint_parameters::ask_parameters(body, ids),
        Kind::Other => (),
    }
    Ok(0)
}

// The same by the kind's place in a survey's bodies, which may be any number.
pub fn ask_body_at(place: usize, body: &[u8], ids: &mut [u64; 64]) -> Result<usize, Refusal>
    ensures { BodyAsked (kind_at place) body.now result ids.old ids.new }
{
    ask_body(Kind::at(place), body, ids)
}

// The types before an extension, and the marks of these: a type is looked up among them only where one has the same mark. Whoever has no
// marks sets all: with an Option the reader would ask at each type whether there are some.
#[derive(Clone, Copy)]
pub struct Known<'a> {
    pub types: &'a [u16],
    pub marks: &'a Marks,
    ghost marked: { Marked marks.now.rests types.now },
}

impl Known<'_> {
    // The type is among them.
    pub fn has(&self, t: u16) -> bool
        ensures { result ≡ member t self.now.types.now }
    {
        self.marks.has(u64::from(t)) && self.types.contains(&t)
    }
}

// The header of the extension at a place; none where header or body are not inside the block. That the place lies in the hello is a fact
// about two arguments: `Headers` holds it from one extension to the next, and whoever asks for one extension has tested it.
pub fn read_header(hello: &[u8], at: usize) -> Option<Header>
    requires { at ≤ length hello.now }
    ensures { HeaderAs result hello.now at }
{
    let n = hello.len();
    if n - at < 4 {
        return None;
    }
    let length = usize::from(be16(&hello[at + 2..]));
    let start = at + 4;
    if n - start < length {
        return None;
    }
    Some(Header {
        ext_type: be16(&hello[at..]),
        start,
        end: start + length,
    })
}

// The headers of the extensions from a place on, one after the other, as long as a whole one stands there: where the place is not the
// hello's end after them, one is cut. Who asks for the place goes over them by `while let`, since a `for` keeps its iterator to itself.
#[derive(Clone, Copy)]
pub struct Headers<'a> {
    hello: &'a [u8],
    pub at: usize,
    ghost inside: { at ≤ length hello.now },
}

impl<'a> Headers<'a> {
    pub fn of(hello: &'a [u8], at: usize) -> Headers<'a>
        requires { at ≤ length hello.now }
        ensures { (result.hello.now ≡ hello.now) × (result.at ≡ at) }
    {
        Headers { hello, at }
    }
}

impl Iterator for Headers<'_> {
    type Item = Header;

    ghost next_gives = { λ s r t. (t.hello.now ≡ s.hello.now) × GivesHeader s.hello.now s.at r t.at };

    ghost remaining = { λ s. at_most (length s.hello.now - s.at) };

    fn next(&mut self) -> Option<Header> {
        let header = read_header(self.hello, self.at)?;
        self.at = header.end;
        Some(header)
    }
}

// The questions of an extension after its header, after others.
pub fn ask_extension(
    hello: &[u8],
    header: Header,
    known: Known<'_>,
    ids: &mut [u64; 64],
) -> Result<Step, Refusal>
    requires { HeaderFound hello.now (header.start - 4) header.ext_type header.start header.end × (length hello.now ≤ 16384) }
    ensures { StepAs result hello.now header known.entry.types.now ids.old ids.new }
{
    if known.has(header.ext_type) {
        return Err(Refusal::ExtensionMalformed);
    }
    let kind = Kind::from(header.ext_type);
    let new_ids = ask_body(kind, &hello[header.start..header.end], ids)?;
    if 64 <= known.types.len() {
        return Err(Refusal::ListTooLong);
    }
    Ok(Step { kind, ids: new_ids })
}

// The whole block, from a place on; types and parameter ids are left in arrays of zeros. The types so far are looked at while they are
// counted, so their count stands beside the loop.
pub fn survey_block(
    hello: &[u8],
    block: usize,
    types: &mut [u16; 64],
    ids: &mut [u64; 64],
) -> Result<Survey, Refusal>
    requires { (block ≤ length hello.now) × (length hello.now ≤ 16384) × (types.old ≡ replicate 64 0) × (ids.old ≡ replicate 64 0) }
    ensures { SurveyAs hello.now block result types.new ids.new }
{
    let mut marks = Marks { rests: [false; 64] };
    let mut bodies = [Span {
        start: 0,
        length: 0,
    }; 8];
    let mut count = 0;
    let mut id_count = 0;
    let mut headers = Headers::of(hello, block);
    while let Some(header) = headers.next() {
        let known = Known {
            types: &types[..count],
            marks: &marks,
        };
        let step = ask_extension(hello, header, known, ids)?;
        types[count] = header.ext_type;
        marks.add(u64::from(header.ext_type));
        bodies[step.kind.slot()] = Span {
            start: header.start,
            length: header.end - header.start,
        };
        count += 1;
        id_count += step.ids;
    }
    if headers.at < hello.len() {
        return Err(Refusal::ExtensionCut);
    }
    Ok(Survey {
        count,
        bodies,
        id_count,
    })
}
