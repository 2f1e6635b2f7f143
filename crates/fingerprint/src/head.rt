// What stands before the extensions: questions 16 to 19, and the suites' 23.
ghost use Rattle.std.specs.Prelude.{◌≤◌, length};
ghost use Rattle.fingerprint.specs.Code.{FieldsAs, FormAs, HeadAs, BeforeFields, BeforeSuites, BlockAs, EndAs};

use fingerprint_lists::Span;
use wire::{Refusal, be16};

// The fields before the extensions: the session id's length, the suites' part of the hello, and the place of the first extension.
#[derive(Clone, Copy)]
pub struct Head {
    pub session: usize,
    pub suites: Span,
    pub block: usize,
}

// All of it: the fields, and then "Suites at most 64? 23".
pub fn read_head(hello: &[u8]) -> Result<Head, Refusal>
    ensures { HeadAs result hello.now }
{
    let head = read_fields(hello)?;
    if 128 < head.suites.length {
        return Err(Refusal::ListTooLong);
    }
    Ok(head)
}

// Hello at most 16,384 bytes? 16 First byte there and 01? 17 Its 3-byte length there and true? 18 Fields and block in their form? 19
pub fn read_fields(hello: &[u8]) -> Result<Head, Refusal>
    ensures { FieldsAs result hello.now }
{
    let n = hello.len();
    if 16384 < n {
        return Err(Refusal::HelloTooLong);
    }
    if n == 0 {
        return Err(Refusal::NoClientHello);
    }
    if hello[0] != 1 {
        return Err(Refusal::NoClientHello);
    }
    if n < 4 {
        return Err(Refusal::WrongLength);
    }
    let length = u32::from_be_bytes([0, hello[1], hello[2], hello[3]]) as usize;
    if length != n - 4 {
        return Err(Refusal::WrongLength);
    }
    after_length(hello).ok_or(Refusal::FieldMalformed)
}

// Version, unread, 32 random bytes, and a session id of up to 32 bytes. From here on, none is a field that is not in its form.
fn after_length(hello: &[u8]) -> Option<Head>
    requires { BeforeFields hello.now }
    ensures { FormAs result hello.now }
{
    let n = hello.len();
    if n < 39 {
        return None;
    }
    let session = usize::from(hello[38]);
    if 32 < session {
        return None;
    }
    if n - 39 < session {
        return None;
    }
    after_session(hello, session)
}

// The suites. Whether there are more than 64 is asked after all fields.
fn after_session(hello: &[u8], session: usize) -> Option<Head>
    requires { BeforeSuites hello.now session }
    ensures { FormAs result hello.now }
{
    let n = hello.len();
    let at = 39 + session;
    if n - at < 2 {
        return None;
    }
    let length = usize::from(be16(&hello[at..]));
    let start = at + 2;
    if length < 2 {
        return None;
    }
    if length % 2 != 0 {
        return None;
    }
    if n - start < length {
        return None;
    }
    let block = after_suites(hello, start + length)?;
    Some(Head {
        session,
        suites: Span { start, length },
        block,
    })
}

// Compression of one byte or more, and the block's length: the place of the first extension. That the place lies in the hello, here and
// below, is what the caller's own test gives; a type for it would be made and opened at each call.
fn after_suites(hello: &[u8], at: usize) -> Option<usize>
    requires { at ≤ length hello.now }
    ensures { BlockAs result hello.now at }
{
    let n = hello.len();
    if n - at < 2 {
        return None;
    }
    let length = usize::from(hello[at]);
    if length == 0 {
        return None;
    }
    if n - at - 1 < length {
        return None;
    }
    block_at(hello, at + 1 + length)
}

// The block's length reaches exactly the hello's end.
fn block_at(hello: &[u8], at: usize) -> Option<usize>
    requires { at ≤ length hello.now }
    ensures { EndAs result hello.now at }
{
    let n = hello.len();
    if n - at < 2 {
        return None;
    }
    if usize::from(be16(&hello[at..])) != n - at - 2 {
        return None;
    }
    Some(at + 2)
}
