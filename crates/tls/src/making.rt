// The whole hello.
ghost use Rattle.std.specs.Prelude.{◌≡◌, cond, ◌++◌, [], ◌∷◌, ◌+◌, ◌-◌, ◌*◌, ◌≤◌, ◌<◌, length, map};
ghost use Rattle.wire.specs.Answer.{result as answered};
ghost use Rattle.wire.specs.Refusals.{answer_of};
ghost use Rattle.wire.specs.Front.{front, Put};
ghost use Rattle.wire.specs.Numbers.{digits};
ghost use Rattle.wire.specs.Vectors.{vector, words};
ghost use Rattle.profiles.specs.Code.{type_number, profile_of, Sound};
ghost use Rattle.profiles.specs.Sizes.{session_length};
ghost use Rattle.tape.specs.Tape.{rand_bytes, shuffle};
ghost use Rattle.tape.specs.Part.{Puts};
ghost use Rattle.tls.specs.Hello.{fields, body, hello};
ghost use Rattle.tls.specs.Make.{plain, ask_name, ask_room, MakesWith, Makes};
ghost use Rattle.tls.specs.Writing.{counted_block, BlockRoom, BodyRoom, HelloRoom};

use crate::Hello;
use crate::building::build_extensions;
use profiles::{Browser, ExtType, Profile};
use tape::Wrote;
use tls_extensions::{put_vector, put_word_vector};
use wire::Refusal;

// legacy_version (TLS 1.2) and random.
fn put_random(out: &mut [u8], tape: &[u8])
    requires { (34 ≤ length out.old) × (32 ≤ length tape.now) }
    ensures { out.new ≡ front (digits 256 2 771 ++ rand_bytes 32 tape.now 0) out.old }
{
    wire::w16(out, 0x0303);
    tape::rand_bytes(&mut out[2..], tape, 0, 32);
}

// Session ids are empty or of 32 bytes.
fn session_length(empty: bool) -> usize
    ensures { (result ≡ cond empty 0 32) × (result ≤ 32) }
{
    if empty { 0 } else { 32 }
}

// The suites with their length, and the one compression method.
fn put_suites(out: &mut [u8], suites: &[u16]) -> usize
    requires { (4 + 2 * length suites.now ≤ length out.old) × (2 * length suites.now < 65536) }
    ensures { Put (vector 2 (words suites.now) ++ vector 1 (0 ∷ [])) result out.old out.new }
{
    let a = put_word_vector::<2, u16>(out, suites);
    a + put_vector::<1>(&mut out[a..], b"\x00")
}

// What stands before the extensions, after the message's head. A profile is asked to be `Sound` here and below, and not by its type: its
// fields are open, and an invariant would ask more of whoever makes one.
fn put_fields(out: &mut [u8], profile: &Profile, tape: &[u8]) -> usize
    requires { Sound profile.now × (length (fields (profile_of profile.now) tape.now) ≤ length out.old) × (32 + session_length (profile_of profile.now) ≤ length tape.now) }
    ensures { Put (fields (profile_of profile.now) tape.now) result out.old out.new }
{
    let s = session_length(profile.use_empty_session_id);
    put_random(out, tape);
    let a = 34 + put_vector::<1>(&mut out[34..], &tape[32..32 + s]);
    a + put_suites(&mut out[a..], profile.suites())
}

// Shuffles the types of the extensions, where the profile does; gives the place on the tape after that.
fn put_in_order(types: &mut [ExtType], shuffled: bool, tape: &[u8], at: usize) -> usize
    requires { (length types.old < 65536) × (at + cond shuffled (8 * (length types.old - 1)) 0 ≤ length tape.now) }
    ensures is { result ≡ at + cond shuffled (8 * (length types.old - 1)) 0 }
    ensures order { map type_number types.new ≡ cond shuffled (shuffle 0 (map type_number types.old) tape.now at) (map type_number types.old) }
{
    if shuffled {
        return tape::shuffle(types, tape, at);
    }
    at
}

// The block of extensions with its length before it, which is written last, when they stand and it is known: so no `put_vector`. The types
// are the profile's array, copied whole and then cut, which is two moves: `copy_from_slice` of the listed ones would be a call of `memmove`.
fn put_block(out: &mut [u8], profile: &Profile, name: &[u8], scid: &[u8], tape: &[u8]) -> Wrote
    requires { BlockRoom profile.now name.now scid.now tape.now (length out.old) }
    ensures { Puts (counted_block (profile_of profile.now) name.now scid.now tape.now) result out.old out.new }
{
    let mut order = profile.extensions_order;
    let types = &mut order[..profile.extensions().len()];
    let drawn = 32 + session_length(profile.use_empty_session_id);
    let at = put_in_order(types, profile.randomize_extensions_order, tape, drawn);
    let w = build_extensions(&mut out[2..], types, profile, name, scid, tape, at);
    wire::w16(out, w.length as u16);
    Wrote {
        length: 2 + w.length,
        next: w.next,
    }
}

// Fields and block. Profile, name, connection id and tape go from call to call one by one and not as a struct: each contract speaks of each
// of them, so the struct would only put a name before each.
fn put_body(out: &mut [u8], profile: &Profile, name: &[u8], scid: &[u8], tape: &[u8]) -> Wrote
    requires { BodyRoom profile.now name.now scid.now tape.now (length out.old) }
    ensures { Puts (body (profile_of profile.now) name.now scid.now tape.now) result out.old out.new }
{
    let a = put_fields(out, profile, tape);
    let w = put_block(&mut out[a..], profile, name, scid, tape);
    Wrote {
        length: a + w.length,
        next: w.next,
    }
}

// Message type and length, and the body.
fn put_hello(out: &mut [u8], profile: &Profile, name: &[u8], scid: &[u8], tape: &[u8]) -> Wrote
    requires { HelloRoom profile.now name.now scid.now tape.now (length out.old) }
    ensures { Puts (hello (profile_of profile.now) name.now scid.now tape.now) result out.old out.new }
{
    let w = put_body(&mut out[4..], profile, name, scid, tape);
    wire::w8(out, 0x01);
    wire::w24(&mut out[1..], w.length as u32);
    Wrote {
        length: 4 + w.length,
        next: w.next,
    }
}

// Each byte 33 to 126? All bytes are looked at, with no early end: so the loop becomes a vector loop. With `iter().all` it does not, and a
// hello with a name of 255 bytes takes 1.47 times as many instructions to make (4973 for 3373, over the three profiles).
fn is_plain(name: &[u8]) -> bool
    ensures { result ≡ plain name.now }
{
    let mut plain = true;
    for &b in name {
        plain = plain & (33 <= b) & (b <= 126);
    }
    plain
}

// The name's questions, 5 and 6. What a caller needs of a name that passes is `named-bytes`.
pub fn ask_name(name: &[u8]) -> Result<(), Refusal>
    ensures { answer_of result ≡ ask_name name.now (answered (tt {0})) }
{
    if !(1..=255).contains(&name.len()) {
        return Err(Refusal::NameLength);
    }
    if !is_plain(name) {
        return Err(Refusal::NameByte);
    }
    Ok(())
}

// The questions on connection id, tape and output, whose lengths are given: 7, 8 and 9.
fn ask_room(
    profile: &Profile,
    name: usize,
    scid: usize,
    tape: usize,
    room: usize,
) -> Result<(), Refusal>
    requires { Sound profile.now × (name < 256) }
    ensures { answer_of result ≡ ask_room (profile_of profile.now) name scid tape room (answered (tt {0})) }
{
    if 20 < scid {
        return Err(Refusal::ConnectionIdTooLong);
    }
    if tape < profile.tape_needed {
        return Err(Refusal::TapeTooShort);
    }
    if room < profile.longest + name + profile.scid_sources * scid {
        return Err(Refusal::NoRoomForHello);
    }
    Ok(())
}

// The hello of a profile, or a refusal.
fn make_with(
    profile: &Profile,
    name: &[u8],
    scid: &[u8],
    tape: &[u8],
    out: &mut [u8],
) -> Result<Hello, Refusal>
    requires { Sound profile.now }
    ensures { MakesWith (profile_of profile.now) name.now scid.now tape.now out.old result out.new }
{
    ask_name(name)?;
    ask_room(profile, name.len(), scid.len(), tape.len(), out.len())?;
    let made = put_hello(out, profile, name, scid, tape);
    Ok(Hello {
        length: made.length,
        drawn: made.next,
    })
}

// Makes the hello of browser 0, 1 or 2 at the front of the output; later bytes stay. Refusals leave all of it: 4 for another browser,
// 5 for a name that does not have 1 to 255 bytes, 6 for one with a byte that is not from 33 to 126, 7 for a connection id of more than
// 20 bytes, 8 for a tape that is too short, 9 for an output that is shorter than the longest hello.
pub fn generate_client_hello(
    browser: u64,
    name: &[u8],
    scid: &[u8],
    tape: &[u8],
    out: &mut [u8],
) -> Result<Hello, Refusal>
    ensures { Makes browser name.now scid.now tape.now out.old result out.new }
{
    let browser = Browser::try_from(browser)?;
    let profile = profiles::built_in::for_browser(browser);
    make_with(&profile, name, scid, tape, out)
}
