// Alike (document 01): whether two hellos are both accepted and agree in what a browser is known by.
#![tactic(auto)]

mod counts;
mod lists;
mod names;

ghost use Rattle.std.specs.Prelude.{◌≡◌};
ghost use Rattle.fingerprint.specs.Reader.{read};
ghost use Rattle.alike.specs.Alike as definition;

use fingerprint::reading::parse_clienthello;

// Both are accepted and agree in session id length, name, suites, groups, key-share groups, signature algorithms, versions and ALPN, and
// in extension types and parameter ids but for their order, each id that is 27 mod 31 counting as 27.
pub fn alike(a: &[u8], b: &[u8]) -> bool
    ensures { result ≡ definition.alike (read a.now) (read b.now) }
{
    let Ok(x) = parse_clienthello(a) else {
        return false;
    };
    let Ok(y) = parse_clienthello(b) else {
        return false;
    };
    x.legacy_session_id_len == y.legacy_session_id_len
        && names::same_name(a, x.sni, b, y.sni)
        && lists::same_lists(&x, &y)
        && names::same_protocols(a, x.protocols(), b, y.protocols())
        && counts::same_but_for_order(&x, &y)
}
