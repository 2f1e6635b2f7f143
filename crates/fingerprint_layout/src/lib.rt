// A report as bytes, in the layout of include/crustdelta.h, written straight from the hello: what the head and the walk found is all that
// it needs, and the struct `Fingerprint` is never built. A writer writes over the front of a lent output; later bytes stay. Lists are
// written over zeros, which stay past each list's count.
#![tactic(auto)]

mod lists; // one list of the hello
mod numbers; // numbers as bytes

ghost use Rattle.std.specs.Prelude.{◌≡◌, ◌≤◌, length};
ghost use Rattle.fingerprint.specs.Code.{Readable};
ghost use Rattle.fingerprint_layout.specs.Code.{FirstPut, LastPut, ReportPut};

use fingerprint::head::Head;
use fingerprint::report::{name_in, part};
use fingerprint::walk::{Kind, Survey};
use fingerprint_bodies::{Share, Word};
use fingerprint_lists::after;
use lists::{put_list, put_names};
use numbers::{clear, put_counts, put_numbers};

// Writes the suites, the types, the groups and the groups of key shares: 512 bytes. It tells how many suites, groups and shares there are.
// Other lists than in `put_last_lists`, at other places: one function for both would take each place and kind of entry as a parameter.
// Hello, head and findings go to both as they came, with the fact that they belong together: a struct of the three would be made in
// `put_report` and taken apart here.
fn put_first_lists(
    out: &mut [u8],
    hello: &[u8],
    head: Head,
    found: Survey,
    types: &[u16; 64],
) -> [usize; 3]
    requires { (512 ≤ length out.old) × Readable hello.now head found }
    ensures { FirstPut hello.now head found types.now result out.old out.new }
{
    clear(out, 512);
    let suites = put_list::<Word>(out, part(hello, head.suites));
    put_numbers(&mut out[128..], types);
    let groups = put_list::<Word>(
        &mut out[256..],
        after(part(hello, found.body(Kind::Groups)), 2),
    );
    let shares = put_list::<Share>(
        &mut out[384..],
        after(part(hello, found.body(Kind::Shares)), 2),
    );
    [suites, groups, shares]
}

// Writes the algorithms, the versions, the protocols and the parameter ids: 832 bytes. It tells how many algorithms, versions and
// protocols there are.
fn put_last_lists(
    out: &mut [u8],
    hello: &[u8],
    head: Head,
    found: Survey,
    ids: &[u64; 64],
) -> [usize; 3]
    requires { (832 ≤ length out.old) × Readable hello.now head found }
    ensures { LastPut hello.now found ids.now result out.old out.new }
{
    clear(out, 320);
    let algorithms = put_list::<Word>(out, after(part(hello, found.body(Kind::Algorithms)), 2));
    let versions = put_list::<Word>(
        &mut out[128..],
        after(part(hello, found.body(Kind::Versions)), 1),
    );
    let at_protocols = found.body(Kind::Protocols);
    let protocols = put_names(
        &mut out[256..],
        after(part(hello, at_protocols), 2),
        at_protocols.start + 2,
    );
    put_numbers(&mut out[320..], ids);
    [algorithms, versions, protocols]
}

// Writes the report of what the head and the walk found: 1,368 bytes. The counts stand before the lists, and are known after them.
pub fn put_report(
    out: &mut [u8],
    hello: &[u8],
    head: Head,
    found: Survey,
    types: &[u16; 64],
    ids: &[u64; 64],
)
    requires { (1368 ≤ length out.old) × Readable hello.now head found }
    ensures { ReportPut hello.now head found types.now ids.now out.old out.new }
{
    let [suites, groups, shares] = put_first_lists(&mut out[24..], hello, head, found, types);
    let [algorithms, versions, protocols] = put_last_lists(
        &mut out[536..],
        hello,
        head,
        found,
        ids,
    );
    let counts: [usize; 9] = [
        head.session,
        suites,
        found.count,
        groups,
        shares,
        algorithms,
        versions,
        protocols,
        found.id_count,
    ];
    put_counts(out, &counts, name_in(found.body(Kind::Name)));
}
