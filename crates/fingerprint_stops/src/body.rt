// The place in a body at which one of its questions is answered "no".
ghost use Rattle.std.specs.Prelude.{◌+◌, ◌≤◌, ◌≡◌, length};
ghost use Rattle.wire.specs.Sums.{member};
ghost use Rattle.fingerprint_bodies.specs.Body.{kind};
ghost use Rattle.fingerprint.specs.Code.{meant};
ghost use Rattle.fingerprint_stops.specs.Stops.{word_size, entry_size, passed, list_at, broken, most, past, repeated_at, body_place};
ghost use Rattle.fingerprint_stops.specs.Code.{SizeAs, bytes_before, first_ids};

use fingerprint::walk::{Kind, ask_body};
use fingerprint_bodies::{Prefix, is_whole, one_name, one_share};
use fingerprint_parameters::{Parameters, one_parameter};
use wire::Refusal;

// How many bytes the entry at the front takes, by its kind; none where no entry is whole.
fn entry_size(kind: Kind, rest: &[u8]) -> Option<usize>
    ensures { SizeAs result (entry_size (meant kind) rest.now) }
{
    match kind {
        Kind::Groups | Kind::Algorithms | Kind::Versions => word_size(rest),
        Kind::Protocols => Some(1 + one_name(rest)?),
        Kind::Shares => Some(one_share(rest)?.used),
        Kind::Parameters => Some(one_parameter(rest)?.used),
        Kind::Name | Kind::Other => None,
    }
}

fn word_size(rest: &[u8]) -> Option<usize>
    ensures { SizeAs result (word_size rest.now) }
{
    if rest.len() < 2 { None } else { Some(2) }
}

// The place after n entries, or that of the first that is not whole. By places and sizes: `Entries` goes over one kind of entry, and the
// kind is known only when this runs, so the loop would stand in a function for each kind and a `match` round the four.
fn passed_over(kind: Kind, list: &[u8], n: usize) -> usize
    ensures { (result ≡ passed (meant kind) n list.now) × (result ≤ length list.now) }
{
    let mut at = 0;
    for _k in 0..n {
        let Some(size) = entry_size(kind, &list[at..]) else {
            return at;
        };
        at += size;
    }
    at
}

// What stands before a body's list, by its kind: the list's length, or nothing.
#[tactic(auto, unfolding(crate::specs::Stops::list_at))]
fn list_prefix(kind: Kind) -> Option<Prefix>
    ensures { bytes_before result ≡ list_at (meant kind) }
{
    match kind {
        Kind::Name | Kind::Groups | Kind::Algorithms | Kind::Protocols | Kind::Shares => Some(
            Prefix::TwoBytes,
        ),
        Kind::Versions => Some(Prefix::OneByte),
        Kind::Parameters | Kind::Other => None,
    }
}

// A body that is not in its form: its list's length, or the first entry that is not whole.
fn broken_at(kind: Kind, body: &[u8]) -> usize
    ensures { (result ≡ broken (meant kind) body.now) × (result ≤ length body.now) }
{
    let Some(prefix) = list_prefix(kind) else {
        return passed_over(kind, body, body.len());
    };
    let width = prefix.bytes();
    if is_whole(body, prefix) {
        if width < body.len() {
            return width + passed_over(kind, &body[width..], body.len());
        }
    }
    0
}

// How many entries stand in a list at most.
#[tactic(auto, unfolding(crate::specs::Stops::most))]
fn most_at(kind: Kind) -> usize
    ensures { result ≡ most (meant kind) }
{
    match kind {
        Kind::Protocols => 16,
        _ => 64,
    }
}

// The first entry past the count of its list.
fn past_count(kind: Kind, body: &[u8]) -> usize
    ensures { (result ≡ past (meant kind) body.now) × (result ≤ 2 + length body.now) }
{
    let width = match list_prefix(kind) {
        Some(prefix) => prefix.bytes(),
        None => 0,
    };
    if body.len() < width {
        return width;
    }
    width + passed_over(kind, &body[width..], most_at(kind))
}

// The id is among those of the first k parameters.
fn among_first(body: &[u8], k: usize, id: u64) -> bool
    ensures { result ≡ member id (first_ids k body.now) }
{
    for other in Parameters::of(body).take(k) {
        if other == id {
            return true;
        }
    }
    false
}

// The first parameter whose id is among those before it. Place and number of a parameter are the answer and what `among_first` asks for, and
// not indices: parameters are gone over by their iterator.
fn repeated_at(body: &[u8]) -> usize
    ensures { (result ≡ repeated_at body.now) × (result ≤ length body.now) }
{
    let mut parameters = Parameters::of(body);
    let mut at = 0;
    let mut k = 0;
    while let Some(id) = parameters.next() {
        if among_first(body, k, id) {
            return at;
        }
        at = body.len() - parameters.rest.len();
        k += 1;
    }
    at
}

// The place from the extension's own: the extension itself where its body is empty or good.
pub fn in_body(t: u16, body: &[u8]) -> usize
    requires { length body.now ≤ 16384 }
    ensures { result ≡ body_place (kind t) body.now }
{
    if body.is_empty() {
        return 0;
    }
    let kind = Kind::from(t);
    let mut ids = [0u64; 64];
    let Err(refusal) = ask_body(kind, body, &mut ids) else {
        return 0;
    };
    match refusal {
        Refusal::ExtensionMalformed => 4 + broken_at(kind, body),
        Refusal::ParameterTwice => 4 + repeated_at(body),
        _ => 4 + past_count(kind, body),
    }
}
