// The place of a field before the extensions: 16 to 19. It goes over the fields that crates/fingerprint/src/head.rt reads. One walk for both
// would be no plainer: each of its answers would carry a place that the reader throws away, and the reader's contracts would speak of places.
// That a place lies in the hello is what the caller's own test gives.
ghost use Rattle.std.specs.Prelude.{◌≤◌, ◌≡◌, length, drop};
ghost use Rattle.wire.specs.Refusals.{question};
ghost use Rattle.fingerprint_stops.specs.Stops.{compression_stop, suites_stop, session_stop, field_stop, head_place};

use wire::{Refusal, be16};

// At the first byte too many, at the first byte, at the length, or at the field.
pub fn head_place(hello: &[u8], refusal: Refusal) -> usize
    ensures { result ≡ head_place hello.now (question refusal) }
{
    match refusal {
        Refusal::HelloTooLong => 16384,
        Refusal::NoClientHello => 0,
        Refusal::WrongLength => 1,
        _ => field_place(hello),
    }
}

// Version, random bytes and session id, which begin at 4, 6 and 38.
fn field_place(hello: &[u8]) -> usize
    ensures { result ≡ field_stop (drop 4 hello.now) }
{
    let n = hello.len();
    if n < 6 {
        return 4;
    }
    if n < 38 {
        return 6;
    }
    session_place(hello)
}

fn session_place(hello: &[u8]) -> usize
    requires { 38 ≤ length hello.now }
    ensures { result ≡ session_stop 38 (drop 38 hello.now) }
{
    let n = hello.len();
    if n < 39 {
        return 38;
    }
    let length = usize::from(hello[38]);
    if 32 < length {
        return 38;
    }
    if n - 39 < length {
        return 38;
    }
    suites_place(hello, 39 + length)
}

fn suites_place(hello: &[u8], at: usize) -> usize
    requires { at ≤ length hello.now }
    ensures { result ≡ suites_stop at (drop at hello.now) }
{
    let n = hello.len();
    if n - at < 2 {
        return at;
    }
    let length = usize::from(be16(&hello[at..]));
    if length < 2 {
        return at;
    }
    if length % 2 != 0 {
        return at;
    }
    if n - at - 2 < length {
        return at;
    }
    compression_place(hello, at + 2 + length)
}

fn compression_place(hello: &[u8], at: usize) -> usize
    requires { at ≤ length hello.now }
    ensures { result ≡ compression_stop at (drop at hello.now) }
{
    let n = hello.len();
    if n - at < 1 {
        return at;
    }
    let length = usize::from(hello[at]);
    if length == 0 {
        return at;
    }
    if n - at - 1 < length {
        return at;
    }
    at + 1 + length
}
