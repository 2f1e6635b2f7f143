// Lists of a report that are compared in order.
ghost use Rattle.std.specs.Prelude.{◌≡◌};
ghost use Rattle.alike.specs.Code.{same_lists_of};

use fingerprint::Fingerprint;

// Suites, groups, key-share groups, signature algorithms and versions.
pub fn same_lists(x: &Fingerprint, y: &Fingerprint) -> bool
    ensures { result ≡ same_lists_of x.now y.now }
{
    x.suites() == y.suites()
        && x.groups() == y.groups()
        && x.shares() == y.shares()
        && x.algorithms() == y.algorithms()
        && x.versions() == y.versions()
}
