// `ext_quic_tp` of tls.rs. The parameters draw in profile order, so each is noted first with the place of its draws; then they are
// shuffled; then each is written, with the draws at its own place. Tape and place are two arguments for the reason that crates/tape gives.
#![tactic(auto)]

ghost use Rattle.std.specs.Prelude.{◌≡◌, ◌+◌, ◌^◌, ◌≤◌, ◌<◌, length, map};
ghost use Rattle.wire.specs.Front.{Put};
ghost use Rattle.varint.specs.Varint.{shortest};
ghost use Rattle.profiles.specs.Sizes.{parameter_draws};
ghost use Rattle.profiles.specs.Code.{parameter_of};
ghost use Rattle.tape.specs.Tape.{rand_bytes, next_u64, grease_id, version_information};
ghost use Rattle.tape.specs.Part.{Room, Puts};
ghost use Rattle.tls_parameters.specs.Parameters.{parameter, parameters, after_parameters, ext_quic_tp};
ghost use Rattle.tls_parameters.specs.Writing.{resolved_bytes, AllVarints, placed_at, sent_of, ParameterRoom, ParametersRoom};

use profiles::{TpEntry, ext};
use tape::Wrote;
use varint::{put_varint, varint_length};

// Id, length of the value, value. That an id has a varint is asked where one is written: ids are fields of `TpEntry`, which are open, and
// a type for them would ask more of whoever makes a profile.
fn put_value(out: &mut [u8], id: u64, value: &[u8]) -> usize
    requires { (id < 2 ^ 62) × (length value.now < 65536) × (length (parameter id value.now) ≤ length out.old) }
    ensures { Put (parameter id value.now) result out.old out.new }
{
    let a = put_varint(out, id);
    let b = a + put_varint(&mut out[a..], value.len() as u64);
    b + wire::put_bytes(&mut out[b..], value)
}

// The same for a number, whose varint is the value: its length is one byte.
fn put_number(out: &mut [u8], id: u64, value: u64) -> usize
    requires { (id < 2 ^ 62) × (value < 2 ^ 62) × (length (parameter id (shortest value)) ≤ length out.old) }
    ensures { Put (parameter id (shortest value)) result out.old out.new }
{
    let a = put_varint(out, id);
    wire::w8(&mut out[a..], varint_length(value) as u8);
    let b = a + 1;
    b + put_varint(&mut out[b..], value)
}

// QUIC version 1 (RFC 9000), the only one that is asked for.
const VERSION_1: u32 = 1;

fn put_version_info(out: &mut [u8], id: u64, tape: &[u8], at: usize) -> usize
    requires { (id < 2 ^ 62) × (at + 8 ≤ length tape.now) × (length (parameter id (version_information 1 (next_u64 tape.now at))) ≤ length out.old) }
    ensures { Put (parameter id (version_information 1 (next_u64 tape.now at))) result out.old out.new }
{
    let value = tape::version_information(VERSION_1, tape::next_u64(tape, at));
    put_value(out, id, &value)
}

// A drawn id with 6 drawn bytes.
fn put_grease(out: &mut [u8], tape: &[u8], at: usize) -> usize
    requires { (at + 14 ≤ length tape.now) × (length (parameter (grease_id (next_u64 tape.now at)) (rand_bytes 6 tape.now (at + 8))) ≤ length out.old) }
    ensures { Put (parameter (grease_id (next_u64 tape.now at)) (rand_bytes 6 tape.now (at + 8))) result out.old out.new }
{
    let id = tape::grease_tp_id(tape::next_u64(tape, at));
    put_value(out, id, &tape[at + 8..at + 14])
}

// One parameter, whose draws begin at a place.
fn put_parameter(out: &mut [u8], p: TpEntry, scid: &[u8], tape: &[u8], at: usize) -> usize
    requires { ParameterRoom (parameter_of p) scid.now tape.now at (length out.old) }
    ensures { Put (resolved_bytes (parameter_of p) scid.now tape.now at) result out.old out.new }
{
    match p {
        TpEntry::Varint(id, value) => put_number(out, id, value),
        TpEntry::Bytes(id, bytes) => put_value(out, id, bytes),
        TpEntry::VersionInfo(id) => put_version_info(out, id, tape, at),
        TpEntry::ScidSource(id) => put_value(out, id, scid),
        TpEntry::Grease => put_grease(out, tape, at),
    }
}

// How many bytes a parameter draws.
fn parameter_draws(p: TpEntry) -> usize
    ensures { (result ≡ parameter_draws (parameter_of p)) × (result ≤ 14) }
{
    match p {
        TpEntry::Varint(..) => 0,
        TpEntry::Bytes(..) => 0,
        TpEntry::VersionInfo(_) => 8,
        TpEntry::ScidSource(_) => 0,
        TpEntry::Grease => 14,
    }
}

// A parameter, and the place on the tape at which its draws begin.
#[derive(Clone, Copy)]
pub struct Placed {
    parameter: TpEntry,
    at: usize,
}

// Notes the parameters in profile order, each with the place of its draws, and gives the place on the tape after all of them. Over
// `placed.iter_mut().zip(entries)` the proof stops at `next`: of that loop it is not known how many parameters came before.
fn place_draws(placed: &mut [Placed], entries: &[TpEntry], at: usize) -> usize
    requires { (length placed.old ≡ length entries.now) × (after_parameters (map parameter_of entries.now) at < 2 ^ 64) }
    ensures { (result ≡ after_parameters (map parameter_of entries.now) at) × (placed.new ≡ placed_at entries.now at) }
{
    let mut next = at;
    for (i, &parameter) in entries.iter().enumerate() {
        placed[i] = Placed {
            parameter,
            at: next,
        };
        next += parameter_draws(parameter);
    }
    next
}

// The parameters in the order given.
fn put_parameters(out: &mut [u8], placed: &[Placed], scid: &[u8], tape: &[u8]) -> usize
    requires { ParametersRoom placed.now scid.now tape.now (length out.old) }
    ensures { Put (parameters (sent_of placed.now scid.now tape.now)) result out.old out.new }
{
    let mut n = 0;
    for p in placed {
        n += put_parameter(&mut out[n..], p.parameter, scid, tape, p.at);
    }
    n
}

// The entries are the profile's parameters.
pub fn ext_quic_tp(
    out: &mut [u8],
    entries: &[TpEntry],
    scid: &[u8],
    tape: &[u8],
    at: usize,
) -> Wrote
    requires { (length entries.now ≤ 16) × AllVarints (map parameter_of entries.now) × Room (ext_quic_tp (map parameter_of entries.now) scid.now tape.now at) (length out.old) (length tape.now) }
    ensures { Puts (ext_quic_tp (map parameter_of entries.now) scid.now tape.now at) result out.old out.new }
{
    let mut placed = [Placed {
        parameter: TpEntry::Grease,
        at: 0,
    }; 16];
    let order = &mut placed[..entries.len()];
    let drawn = place_draws(order, entries, at);
    let next = tape::shuffle(order, tape, drawn);
    let n = put_parameters(&mut out[4..], order, scid, tape);
    tls_extensions::put_head(out, ext::QUIC_TRANSPORT_PARAMS, n);
    Wrote {
        length: 4 + n,
        next,
    }
}
