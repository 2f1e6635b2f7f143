// The report, built from what the head and the walk found.
ghost use Rattle.std.specs.Prelude.{◌≡◌, map, ◌+◌, ◌≤◌, length};
ghost use Rattle.fingerprint_lists.specs.Arrays.{ext_type};
ghost use Rattle.fingerprint.specs.Code.{part_of, name_in, Readable, ReportAs};

use crate::Fingerprint;
use crate::head::Head;
use crate::walk::{Kind, Survey};
use fingerprint_bodies::Prefix;
use fingerprint_lists::Span;
use profiles::{ExtType, Group};

// The bytes of a part.
pub fn part(hello: &[u8], s: Span) -> &[u8]
    requires { s.start + s.length ≤ length hello.now }
    ensures { result.now ≡ part_of hello.now s }
{
    let a = s.start;
    let e = a + s.length;
    &hello[a..e]
}

// The name stands in a body after a count of two bytes, its type and its own count.
pub fn name_in(body: Span) -> Option<Span>
    requires { body.start + body.length ≤ 16384 }
    ensures { result ≡ name_in body }
{
    if body.length < 5 {
        return None;
    }
    Some(Span {
        start: body.start + 5,
        length: body.length - 5,
    })
}

// The types, from the numbers that the walk left. A loop that copies: the array's `map` goes over an iterator that owns it, and made the
// report take twice as long. By its place, for under `iter_mut().zip(..)` no invariant of the loop can name what was written. Groups are made
// of numbers by the same loop (`From<Words>` of fingerprint_lists): over both types it would take a trait, for one line.
pub fn ext_types(numbers: &[u16; 64]) -> [ExtType; 64]
    ensures { result ≡ map ext_type numbers.now }
{
    let mut types = [ExtType(0); 64];
    for (i, &number) in numbers.iter().enumerate() {
        types[i] = ExtType(number);
    }
    types
}

pub fn report(
    hello: &[u8],
    head: Head,
    found: Survey,
    types: [u16; 64],
    ids: [u64; 64],
) -> Fingerprint
    requires { Readable hello.now head found }
    ensures { ReportAs hello.now head found types ids result }
{
    let suite_list = fingerprint_lists::words_in(part(hello, head.suites));
    let groups = fingerprint_lists::group_list(part(hello, found.body(Kind::Groups)));
    let shares = fingerprint_lists::key_share_groups(part(hello, found.body(Kind::Shares)));
    let algorithms = fingerprint_lists::word_list(
        part(hello, found.body(Kind::Algorithms)),
        Prefix::TwoBytes,
    );
    let versions = fingerprint_lists::word_list(
        part(hello, found.body(Kind::Versions)),
        Prefix::OneByte,
    );
    let at_protocols = found.body(Kind::Protocols);
    let names = fingerprint_lists::protocol_names(part(hello, at_protocols), at_protocols.start);
    let cipher_suites = suite_list.items;
    let supported_groups = groups.items;
    let key_share_groups = shares.items;
    let signature_algorithms = algorithms.items;
    let supported_versions = versions.items;
    let alpn = names.items;
    Fingerprint {
        legacy_session_id_len: head.session,
        cipher_suites,
        suite_count: suite_list.count,
        extensions: ext_types(&types),
        extension_count: found.count,
        supported_groups,
        group_count: groups.count,
        key_share_groups,
        share_count: shares.count,
        signature_algorithms,
        algorithm_count: algorithms.count,
        supported_versions,
        version_count: versions.count,
        alpn,
        alpn_count: names.count,
        sni: name_in(found.body(Kind::Name)),
        transport_param_ids: ids,
        id_count: found.id_count,
    }
}
