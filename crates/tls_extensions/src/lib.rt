// The extension writers of tls.rs, all but the transport parameters. Each fills the front of the part of the output that it is lent
// and gives the count of its bytes; one that draws also gives the place on the tape after its last draw. Tape and place are two arguments
// for the reason that crates/tape gives.
#![tactic(auto)]

ghost use Rattle.std.specs.Prelude.{◌≡◌, ◌++◌, [], ◌∷◌, ◌+◌, ◌*◌, ◌^◌, ◌≤◌, ◌<◌, length, map, MatchOption};
ghost use Rattle.wire.specs.Front.{front, Put};
ghost use Rattle.wire.specs.Numbers.{digits};
ghost use Rattle.wire.specs.Vectors.{vector, words, extension};
ghost use Rattle.profiles.specs.Sizes.{key_share_size, key_draws};
ghost use Rattle.profiles.specs.Code.{group_number};
ghost use Rattle.tape.specs.Tape.{next_u64, payload_length};
ghost use Rattle.tape.specs.Part.{Room, Puts};
ghost use Rattle.tls_extensions.specs.Extensions.{ext_server_name, ext_alpn, key_of, key_share, key_shares, ext_key_share, ext_encrypted_client_hello, ext_compress_cert, fixed_extension};

use profiles::named_groups::{PQ_HYBRID_GROUP, SECP256R1};
use profiles::{ExtType, Group, ext};
use tape::Wrote;
use wire::Word;

// Type and length of the body. That a length fits two bytes is asked by each writer of one: it is a sum of lengths that its caller has, and
// a type for it, or a `u16`, would be made of the sum at each call.
pub fn put_head(out: &mut [u8], t: ExtType, n: usize)
    requires { (4 ≤ length out.old) × (n < 65536) }
    ensures { out.new ≡ front (digits 256 2 t.0 ++ digits 256 2 n) out.old }
{
    wire::w16(out, t.0);
    wire::w16(&mut out[2..], n as u16);
}

// A vector: bytes, with their count in N bytes before them.
pub fn put_vector<const N: usize>(out: &mut [u8], bytes: &[u8]) -> usize
    requires { (N ≤ 8) × (N + length bytes.now ≤ length out.old) × (length bytes.now < 256 ^ N) }
    ensures { Put (vector N bytes.now) result out.old out.new }
{
    wire::put_be::<N>(out, bytes.len() as u64);
    N + wire::put_bytes(&mut out[N..], bytes)
}

// A vector of 16-bit numbers; the count is that of their bytes.
pub fn put_word_vector<const N: usize, T: Word>(out: &mut [u8], values: &[T]) -> usize
    requires { (N ≤ 8) × (N + 2 * length values.now ≤ length out.old) × (2 * length values.now < 256 ^ N) }
    ensures { Put (vector N (words (map T.word values.now))) result out.old out.new }
{
    wire::put_be::<N>(out, (2 * values.len()) as u64);
    N + wire::put_words(&mut out[N..], values)
}

// Type and length of the body, which is a list of n bytes with its length before it. `put_vector` would want the list as one slice, and its
// callers write it in pieces.
fn put_list_head(out: &mut [u8], t: ExtType, n: usize)
    requires { (6 ≤ length out.old) × (n < 65534) }
    ensures { out.new ≡ front ((digits 256 2 t.0 ++ digits 256 2 (2 + n)) ++ digits 256 2 n) out.old }
{
    put_head(out, t, 2 + n);
    wire::w16(&mut out[4..], n as u16);
}

fn put_extension(out: &mut [u8], t: ExtType, body: &[u8]) -> usize
    requires { (4 + length body.now ≤ length out.old) × (length body.now < 65536) }
    ensures { Put (extension t.0 body.now) result out.old out.new }
{
    wire::w16(out, t.0);
    2 + put_vector::<2>(&mut out[2..], body)
}

// Name type 0, and the name with its length.
fn put_host_name(out: &mut [u8], name: &[u8]) -> usize
    requires { (3 + length name.now ≤ length out.old) × (length name.now < 65536) }
    ensures { Put (0 ∷ vector 2 name.now) result out.old out.new }
{
    wire::w8(out, 0x00);
    1 + put_vector::<2>(&mut out[1..], name)
}

pub fn ext_server_name(out: &mut [u8], name: &[u8]) -> usize
    requires { (9 + length name.now ≤ length out.old) × (length name.now < 65530) }
    ensures { Put (ext_server_name name.now) result out.old out.new }
{
    put_list_head(out, ext::SERVER_NAME, 3 + name.len());
    6 + put_host_name(&mut out[6..], name)
}

// A list of one protocol.
pub fn ext_alpn(out: &mut [u8], name: &[u8]) -> usize
    requires { (7 + length name.now ≤ length out.old) × (length name.now < 256) }
    ensures { Put (ext_alpn (name.now ∷ [])) result out.old out.new }
{
    put_list_head(out, ext::ALPN, 1 + name.len());
    6 + put_vector::<1>(&mut out[6..], name)
}

// A list of 16-bit numbers, whose length stands in N bytes before it.
pub fn ext_u16_list<const N: usize, T: Word>(out: &mut [u8], t: ExtType, values: &[T]) -> usize
    requires { (N ≤ 8) × (4 + N + 2 * length values.now ≤ length out.old) × (N + 2 * length values.now < 65536) × (2 * length values.now < 256 ^ N) }
    ensures { Put (extension t.0 (vector N (words (map T.word values.now)))) result out.old out.new }
{
    put_head(out, t, N + 2 * values.len());
    4 + put_word_vector::<N, T>(&mut out[4..], values)
}

fn key_share_size(group: Group) -> usize
    ensures { (result ≡ key_share_size group.0) × (result < 65536) }
{
    match group {
        SECP256R1 => 65,
        PQ_HYBRID_GROUP => 1216,
        _ => 32,
    }
}

// The key of a group: drawn, for secp256r1 after the 04 of an uncompressed point. Gives the count drawn.
fn put_key(out: &mut [u8], group: Group, tape: &[u8], at: usize) -> usize
    requires { (key_share_size group.0 ≤ length out.old) × (at + key_draws group.0 ≤ length tape.now) }
    ensures { (result ≡ key_draws group.0) × (out.new ≡ front (key_of group.0 tape.now at) out.old) }
{
    let size = key_share_size(group);
    if group == SECP256R1 {
        wire::w8(out, 0x04);
        return tape::rand_bytes(&mut out[1..], tape, at, size - 1);
    }
    tape::rand_bytes(out, tape, at, size)
}

// Group, length of the key, key. No `put_vector`: the key is no slice of the tape, for the 04 of secp256r1's is not on it.
fn put_key_share(out: &mut [u8], group: Group, tape: &[u8], at: usize) -> Wrote
    requires { (4 + key_share_size group.0 ≤ length out.old) × (at + key_draws group.0 ≤ length tape.now) }
    ensures { Puts (key_share group.0 tape.now at) result out.old out.new }
{
    let size = key_share_size(group);
    wire::w16(out, group.0);
    wire::w16(&mut out[2..], size as u16);
    let drawn = put_key(&mut out[4..], group, tape, at);
    Wrote {
        length: 4 + size,
        next: at + drawn,
    }
}

fn put_key_shares(out: &mut [u8], groups: &[Group], tape: &[u8], at: usize) -> Wrote
    requires { Room (key_shares (map group_number groups.now) tape.now at) (length out.old) (length tape.now) }
    ensures { Puts (key_shares (map group_number groups.now) tape.now at) result out.old out.new }
{
    let mut n = 0;
    let mut next = at;
    for &group in groups {
        let w = put_key_share(&mut out[n..], group, tape, next);
        n += w.length;
        next = w.next;
    }
    Wrote { length: n, next }
}

pub fn ext_key_share(out: &mut [u8], groups: &[Group], tape: &[u8], at: usize) -> Wrote
    requires { Room (ext_key_share (map group_number groups.now) tape.now at) (length out.old) (length tape.now) }
    ensures { Puts (ext_key_share (map group_number groups.now) tape.now at) result out.old out.new }
{
    let w = put_key_shares(&mut out[6..], groups, tape, at);
    put_list_head(out, ext::KEY_SHARE, w.length);
    Wrote {
        length: 6 + w.length,
        next: w.next,
    }
}

// Type, length of the body, outer, HKDF-SHA256 and AES-128-GCM, config id.
fn put_ech_head(out: &mut [u8], n: usize, config: u8)
    requires { (10 ≤ length out.old) × (n < 65536) }
    ensures { out.new ≡ front ((digits 256 2 65037 ++ digits 256 2 n) ++ (0 ∷ 0 ∷ 1 ∷ 0 ∷ 1 ∷ config ∷ [])) out.old }
{
    let fixed: [u8; 6] = [0x00, 0x00, 0x01, 0x00, 0x01, config];
    put_head(out, ext::ENCRYPTED_CLIENT_HELLO, n);
    wire::put_bytes(&mut out[4..], &fixed);
}

pub fn ext_encrypted_client_hello(out: &mut [u8], tape: &[u8], at: usize) -> Wrote
    requires { (46 + payload_length (next_u64 tape.now (at + 40)) ≤ length out.old) × (at + 48 + payload_length (next_u64 tape.now (at + 40)) ≤ length tape.now) }
    ensures { Puts (ext_encrypted_client_hello tape.now at) result out.old out.new }
{
    let config = (tape::next_u64(tape, at) % 256) as u8;
    let n = tape::payload_length(tape::next_u64(tape, at + 40));
    put_ech_head(out, 42 + n, config);
    put_vector::<2>(&mut out[10..], &tape[at + 8..at + 40]);
    put_vector::<2>(&mut out[44..], &tape[at + 48..at + 48 + n]);
    Wrote {
        length: 46 + n,
        next: at + 48 + n,
    }
}

pub fn ext_compress_cert(out: &mut [u8], firefox: bool) -> usize
    requires { length (ext_compress_cert firefox) ≤ length out.old }
    ensures { Put (ext_compress_cert firefox) result out.old out.new }
{
    if firefox {
        return put_extension(
            out,
            ext::COMPRESS_CERTIFICATE,
            b"\x06\x00\x01\x00\x03\x00\x02",
        );
    }
    put_extension(out, ext::COMPRESS_CERTIFICATE, b"\x02\x00\x02")
}

// The body of an extension whose bytes are the same in every hello; none for another type.
fn fixed_body(t: ExtType) -> Option<&'static [u8]>
    ensures { MatchOption result (fixed_extension t.0 ≡ []) (λ body. (fixed_extension t.0 ≡ extension t.0 body.now) × (length body.now < 65536)) }
{
    match t {
        ext::PSK_KEY_EXCHANGE_MODES => Some(b"\x01\x01"),
        ext::RECORD_SIZE_LIMIT => Some(b"\x40\x01"),
        ext::RENEGOTIATION_INFO => Some(b"\x00"),
        ext::STATUS_REQUEST => Some(b"\x01\x00\x00\x00\x00"),
        ext::EXTENDED_MASTER_SECRET => Some(b""),
        ext::DELEGATED_CREDENTIALS => Some(b"\x00\x08\x04\x03\x05\x03\x06\x03\x02\x03"),
        ext::APPLICATION_SETTINGS => Some(b"\x00\x03\x02h3"),
        _ => None,
    }
}

// An extension whose bytes are the same in every hello; nothing for another type.
pub fn ext_fixed(out: &mut [u8], t: ExtType) -> usize
    requires { length (fixed_extension t.0) ≤ length out.old }
    ensures { Put (fixed_extension t.0) result out.old out.new }
{
    match fixed_body(t) {
        Some(body) => put_extension(out, t, body),
        None => 0,
    }
}
