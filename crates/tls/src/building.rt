// Extensions by type, each to the part of the output that starts where the last one stopped. Tape and place are two arguments for the
// reason that crates/tape gives.
ghost use Rattle.std.specs.Prelude.{◌≡◌, ◌≤◌, ◌<◌, length};
ghost use Rattle.wire.specs.Front.{Put};
ghost use Rattle.profiles.specs.Code.{profile_of, Sound};
ghost use Rattle.tape.specs.Part.{Room, Puts};
ghost use Rattle.tls_extensions.specs.Extensions.{ext_alpn, ext_u16_list, ext_supported_versions, ext_key_share};
ghost use Rattle.tls_parameters.specs.Parameters.{ext_quic_tp};
ghost use Rattle.tls.specs.Hello.{build_extension};
ghost use Rattle.tls.specs.Writing.{extensions_of, ExtensionRoom, ExtensionsRoom};

use profiles::{ExtType, Group, Profile, ext};
use tape::Wrote;
use tls_extensions::{
    ext_alpn, ext_compress_cert, ext_encrypted_client_hello, ext_fixed, ext_key_share,
    ext_server_name, ext_u16_list,
};
use tls_parameters::ext_quic_tp;

// What a writer that draws nothing did.
fn still(length: usize, at: usize) -> Wrote
    ensures { (result.length ≡ length) × (result.next ≡ at) }
{
    Wrote { length, next: at }
}

// Profile, name, connection id and tape go one by one for the reason that stands at `put_body` (making.rt).
fn build_extension(
    out: &mut [u8],
    t: ExtType,
    profile: &Profile,
    name: &[u8],
    scid: &[u8],
    tape: &[u8],
    at: usize,
) -> Wrote
    requires { ExtensionRoom profile.now t.0 name.now scid.now tape.now at (length out.old) }
    ensures { Puts (build_extension (profile_of profile.now) name.now scid.now tape.now t.0 at) result out.old out.new }
{
    match t {
        ext::SERVER_NAME => still(ext_server_name(out, name), at),
        ext::ALPN => still(ext_alpn(out, &profile.alpn), at),
        ext::SUPPORTED_GROUPS => still(ext_u16_list::<2, Group>(out, t, profile.groups()), at),
        ext::SIGNATURE_ALGORITHMS => still(
            ext_u16_list::<2, u16>(out, t, profile.algorithms()),
            at,
        ),
        ext::SUPPORTED_VERSIONS => still(ext_u16_list::<1, u16>(out, t, profile.versions()), at),
        ext::KEY_SHARE => ext_key_share(out, profile.shares(), tape, at),
        ext::QUIC_TRANSPORT_PARAMS => ext_quic_tp(out, profile.parameters(), scid, tape, at),
        ext::COMPRESS_CERTIFICATE => {
            still(ext_compress_cert(out, profile.firefox_compression), at)
        }
        ext::ENCRYPTED_CLIENT_HELLO => ext_encrypted_client_hello(out, tape, at),
        _ => still(ext_fixed(out, t), at),
    }
}

// Extensions of these types, in this order.
pub fn build_extensions(
    out: &mut [u8],
    types: &[ExtType],
    profile: &Profile,
    name: &[u8],
    scid: &[u8],
    tape: &[u8],
    at: usize,
) -> Wrote
    requires { ExtensionsRoom profile.now types.now name.now scid.now tape.now at (length out.old) }
    ensures { Puts (extensions_of profile.now types.now name.now scid.now tape.now at) result out.old out.new }
{
    let mut n = 0;
    let mut next = at;
    for &t in types {
        let w = build_extension(&mut out[n..], t, profile, name, scid, tape, next);
        n += w.length;
        next = w.next;
    }
    Wrote { length: n, next }
}
