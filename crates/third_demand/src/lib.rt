// Two greetings, end to end: each is made, its frames are joined, and what was joined is read; then the two are compared.
#![tactic(auto)]

ghost use Rattle.std.specs.Prelude.{◌≡◌};
ghost use Rattle.wire.specs.Numbers.{Bytes};
ghost use Rattle.third_demand.specs.Run.{handed, Went, Ran};

use alike::alike;
use fingerprint::Fingerprint;
use fingerprint::reading::parse_clienthello;
use frames::joining::reassemble_crypto;
use tls::Hello;
use tls::making::generate_client_hello;
use wire::Refusal;

// What one side is handed: what its hello is made of, and the frames in which it is sent.
#[derive(Clone, Copy)]
pub struct Side<'a> {
    pub browser: u64,
    pub name: &'a [u8],
    pub scid: &'a [u8],
    pub tape: &'a [u8],
    pub frames: &'a [u8],
}

// One greeting: what the maker answered, what the joiner answered, and the report of what it left.
#[derive(Clone, Copy)]
pub struct Greeted {
    pub made: Result<Hello, Refusal>,
    pub joined: Result<usize, Refusal>,
    pub report: Result<Fingerprint, Refusal>,
}

// Both greetings, and whether what was joined is alike.
#[derive(Clone, Copy)]
pub struct Outcome {
    pub first: Greeted,
    pub second: Greeted,
    pub alike: bool,
}

// The parts of a side, one by one: of a slice in a struct it is not known that its elements are bytes, so the clause `bytes` does not close over
// a `Side`. What a side writes to goes beside it, for a `Side` is copied and a `&mut` is not.
fn greet(
    browser: u64,
    name: &[u8],
    scid: &[u8],
    tape: &[u8],
    frames: &[u8],
    hello: &mut [u8],
    out: &mut [u8],
    marks: &mut [u8],
) -> Greeted
    ensures bytes { Bytes scid.now × Bytes tape.now }
    ensures went { Went (handed browser name.now scid.now tape.now frames.now hello.old out.old) marks.old result hello.new out.new marks.new }
{
    let made = generate_client_hello(browser, name, scid, tape, hello);
    let joined = reassemble_crypto(frames, out, marks);
    let report = parse_clienthello(&out[..joined.unwrap_or(0)]);
    Greeted {
        made,
        joined,
        report,
    }
}

// Makes two hellos at the front of `hello` and `hello2`, joins the frames of each into an output of its own, with one buffer for the
// marks, reads the front parts of the outputs, and compares them. Each call is made, whatever the others answered.
pub fn two_greetings(
    side: Side,
    side2: Side,
    hello: &mut [u8],
    out: &mut [u8],
    hello2: &mut [u8],
    out2: &mut [u8],
    marks: &mut [u8],
) -> Outcome
    ensures { Ran (handed side.entry.browser side.entry.name.now side.entry.scid.now side.entry.tape.now side.entry.frames.now hello.old out.old) (handed side2.entry.browser side2.entry.name.now side2.entry.scid.now side2.entry.tape.now side2.entry.frames.now hello2.old out2.old) marks.old result hello.new out.new hello2.new out2.new marks.new }
{
    let first = greet(
        side.browser,
        side.name,
        side.scid,
        side.tape,
        side.frames,
        hello,
        out,
        marks,
    );
    let second = greet(
        side2.browser,
        side2.name,
        side2.scid,
        side2.tape,
        side2.frames,
        hello2,
        out2,
        marks,
    );
    let end = first.joined.unwrap_or(0);
    let end2 = second.joined.unwrap_or(0);
    Outcome {
        first,
        second,
        alike: alike(&out[..end], &out2[..end2]),
    }
}
