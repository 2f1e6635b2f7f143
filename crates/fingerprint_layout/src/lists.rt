// The lists of a report in the layout of include/crustdelta.h, written straight from the hello's bytes. Each writes over the front of a
// lent output, and tells the list's count; later bytes stay.
ghost use Rattle.std.specs.Prelude.{◌≡◌, map, ◌+◌, ◌*◌, ◌≤◌, length};
ghost use Rattle.wire.specs.Front.{front};
ghost use Rattle.fingerprint_bodies.specs.Entries.{or_empty, all_entries, front_entries};
ghost use Rattle.fingerprint_bodies.specs.Forms.{one_name};
ghost use Rattle.fingerprint_bodies.specs.Code.{Found};
ghost use Rattle.fingerprint_lists.specs.Arrays.{span_of, placed};
ghost use Rattle.fingerprint_layout.specs.Layout.{littles, ranges};

use crate::numbers::{Little, put_range};
use fingerprint_bodies::{Entries, Listed, Names};
use fingerprint_lists::Span;

// Writes the numbers that the entries of a list are told by: their count.
pub fn put_list<E: Listed<Value = u16>>(out: &mut [u8], list: &[u8]) -> usize
    requires { 2 * length (front_entries E.form list.now) ≤ length out.old }
    ensures { (result ≡ length (front_entries E.form list.now)) × (out.new ≡ front (littles 2 (front_entries E.form list.now)) out.old) }
{
    let mut k = 0;
    for number in Entries::<E>::of(list) {
        number.put(&mut out[2 * k..]);
        k += 1;
    }
    k
}

// Writes the ranges of names: their count. A range is two numbers, so this is no `put_list`. The list's first byte stands at `start` in
// the hello.
pub fn put_names(out: &mut [u8], list: &[u8], start: usize) -> usize
    requires { Found 16 (all_entries one_name list.now) × (start + length list.now ≤ 65535) × (64 ≤ length out.old) }
    ensures { (result ≡ length (placed start (or_empty (all_entries one_name list.now)))) × (out.new ≡ front (littles 2 (ranges (map span_of (placed start (or_empty (all_entries one_name list.now)))))) out.old) }
{
    let mut k = 0;
    let mut at = start;
    for length in Names::of(list) {
        let name = Span {
            start: at + 1,
            length,
        };
        put_range(&mut out[4 * k..], name);
        at += 1 + length;
        k += 1;
    }
    k
}
