// The extension walk: a ClientHello and the place of its next extension, one step at a time, for tools that look at extensions one by
// one. Each step asks question 20 alone; types that stand twice, bodies and counts are the reader's to refuse. A thin layer over the
// reader's own functions: what it takes apart goes to `step_at` and `first_extension`, which take a plain slice.
#![tactic(auto)]

ghost use Rattle.std.specs.Prelude.{◌≡◌};
ghost use Rattle.ext_walk.specs.Steps.{step_at, first_extension};

use fingerprint::head::read_fields;
use fingerprint::walk::read_header;
use profiles::ExtType;
use wire::Refusal;

// An extension, by its type and the ends of its body, where the next one begins too. The reader's `Header` is the same with the type as the
// number that it looks up and marks; one struct for both would have the reader take the number out at each use.
#[derive(Clone, Copy, PartialEq, Eq, Debug)]
pub struct Extension {
    pub ext_type: ExtType,
    pub start: usize,
    pub end: usize,
}

// A hello and a place in it. No Iterator: a step leaves the walk where it is, so that whoever is refused there can go on elsewhere.
#[derive(Clone, Copy)]
pub struct ExtensionWalk<'a> {
    pub hello: &'a [u8],
    pub at: usize,
}

impl<'a> ExtensionWalk<'a> {
    // The walk begins at the first extension.
    pub fn new(hello: &'a [u8]) -> ExtensionWalk<'a>
        ensures { (result.hello ≡ hello.entry) × (result.at ≡ first_extension hello.now) }
    {
        ExtensionWalk {
            hello,
            at: first_extension(hello),
        }
    }

    // What stands where the walk is.
    pub fn step(self) -> Result<Option<Extension>, Refusal>
        ensures { result ≡ step_at self.entry.hello.now self.entry.at }
    {
        step_at(self.hello, self.at)
    }

    // The walk at another place: the end of an extension's body is the place of the next.
    pub fn moved(self, at: usize) -> ExtensionWalk<'a>
        ensures { (result.hello ≡ self.entry.hello) × (result.at ≡ at) }
    {
        ExtensionWalk {
            hello: self.hello,
            at,
        }
    }
}

// The extension at a place, or none at the hello's end: header and body inside the block? 20
pub fn step_at(hello: &[u8], at: usize) -> Result<Option<Extension>, Refusal>
    ensures { result ≡ step_at hello.now at }
{
    if hello.len() <= at {
        return Ok(None);
    }
    let header = read_header(hello, at).ok_or(Refusal::ExtensionCut)?;
    Ok(Some(Extension {
        ext_type: ExtType(header.ext_type),
        start: header.start,
        end: header.end,
    }))
}

// The place of the first extension, where the fields before it pass questions 16 to 19; else the hello's end, where no extension is. No
// Result: which of them is refused the reader says.
pub fn first_extension(hello: &[u8]) -> usize
    ensures { result ≡ first_extension hello.now }
{
    match read_fields(hello) {
        Ok(head) => head.block,
        Err(_) => hello.len(),
    }
}

// The first extension, for callers that hold a plain slice.
pub fn first(hello: &[u8]) -> Result<Option<Extension>, Refusal>
    ensures { result ≡ step_at hello.now (first_extension hello.now) }
{
    ExtensionWalk::new(hello).step()
}
