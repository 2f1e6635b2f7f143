// Where the reader stops: a hello's refusal, and the place at which its question was answered "no". The refusals are the reader's; the
// places are found only for a hello that is refused.
#![tactic(auto)]

mod body;
mod fields;

ghost use Rattle.std.specs.Prelude.{◌-◌, ◌≤◌, ◌≡◌, [], length, drop};
ghost use Rattle.wire.specs.Stops.{stop_of, StopBounds};
ghost use Rattle.fingerprint.specs.Reader.{one_extension};
ghost use Rattle.fingerprint.specs.Code.{HeaderFound};
ghost use Rattle.fingerprint_stops.specs.Stops.{stopped_at, walk_stops, extension_place};

use body::in_body;
use fields::head_place;
use fingerprint::head::read_fields;
use fingerprint::walk::{Header, Headers, Known, ask_extension};
use fingerprint_parameters::Marks;
use wire::{Refusal, Stop};

// The refusal and its place, for any bytes; none for a hello that is accepted.
pub fn stopped_at(hello: &[u8]) -> Option<Stop>
    ensures result_value { stop_of result ≡ stopped_at hello.now }
    ensures stop_bounds { StopBounds (length hello.now) result }
{
    match read_fields(hello) {
        Ok(head) => {
            if 128 < head.suites.length {
                return Some(Stop {
                    refusal: Refusal::ListTooLong,
                    place: 41 + head.session + 128,
                });
            }
            block_stop(hello, head.block)
        }
        Err(refusal) => Some(Stop {
            refusal,
            place: head_place(hello, refusal),
        }),
    }
}

// The extensions in turn. All marks are set, so each type is looked up among those before it. That a hello has at most 16,384 bytes, here
// and below, is what `read_fields` tested: as a type it would be made once and opened at each call.
fn block_stop(hello: &[u8], block: usize) -> Option<Stop>
    requires { (block ≤ length hello.now) × (length hello.now ≤ 16384) }
    ensures { stop_of result ≡ walk_stops (length (drop block hello.now)) block [] (drop block hello.now) }
{
    let marks = Marks { rests: [true; 64] };
    let mut types = [0u16; 64];
    let mut ids = [0u64; 64];
    let mut count = 0;
    let mut headers = Headers::of(hello, block);
    while let Some(header) = headers.next() {
        let known = Known {
            types: &types[..count],
            marks: &marks,
        };
        match ask_extension(hello, header, known, &mut ids) {
            Ok(_) => {
                types[count] = header.ext_type;
                count += 1;
            }
            Err(refusal) => {
                return Some(Stop {
                    refusal,
                    place: header.start - 4 + place_in(hello, header, known),
                });
            }
        }
    }
    if headers.at < hello.len() {
        return Some(Stop {
            refusal: Refusal::ExtensionCut,
            place: headers.at,
        });
    }
    None
}

// The place, from the extension's own, at which one of its questions is answered "no", after others.
fn place_in(hello: &[u8], header: Header, known: Known<'_>) -> usize
    requires { HeaderFound hello.now (header.start - 4) header.ext_type header.start header.end × (length hello.now ≤ 16384) }
    ensures { (result ≡ extension_place known.entry.types.now (one_extension (drop (header.start - 4) hello.now))) × (result ≤ length hello.now - (header.start - 4)) }
{
    if known.has(header.ext_type) {
        return 0;
    }
    in_body(header.ext_type, &hello[header.start..header.end])
}
