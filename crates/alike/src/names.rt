// Names of two hellos, compared by their bytes, wherever they stand.
ghost use Rattle.std.specs.Prelude.{◌≡◌, length};
ghost use Rattle.fingerprint.specs.InRange.{SniInside, SpansInside};
ghost use Rattle.alike.specs.Alike.{same_numbers, same_list, same_name};
ghost use Rattle.alike.specs.Code.{name_of, names_of};

use fingerprint::report::part;
use fingerprint_lists::Span;

// The server's names, or none in both: ranges of two hellos, so `==` of the options would compare places.
pub fn same_name(a: &[u8], x: Option<Span>, b: &[u8], y: Option<Span>) -> bool
    requires { SniInside a.now x × SniInside b.now y }
    ensures { result ≡ same_name (name_of a.now x) (name_of b.now y) }
{
    match (x, y) {
        (Some(s), Some(t)) => part(a, s) == part(b, t),
        (None, None) => true,
        _ => false,
    }
}

// The protocol names of a are those of b.
pub fn same_protocols(a: &[u8], x: &[Span], b: &[u8], y: &[Span]) -> bool
    requires { SpansInside a.now x.now (length x.now) × SpansInside b.now y.now (length y.now) }
    ensures { result ≡ same_list same_numbers (names_of a.now x.now) (names_of b.now y.now) }
{
    if x.len() != y.len() {
        return false;
    }
    for (&s, &t) in x.iter().zip(y) {
        if part(a, s) != part(b, t) {
            return false;
        }
    }
    true
}
