// Extension types and parameter ids, compared with order put aside and repeats counted.
ghost use Rattle.std.specs.Prelude.{◌≡◌, ℕ, ◌≤◌, map, length};
ghost use Rattle.wire.specs.Sums.{count, equally_often, same_counts};
ghost use Rattle.fingerprint_lists.specs.Arrays.{padded};
ghost use Rattle.fingerprint.specs.Code.{type_number};
ghost use Rattle.alike.specs.Alike.{alike_id};
ghost use Rattle.alike.specs.Code.{same_counts_of};

use fingerprint::Fingerprint;
use profiles::ExtType;

// How often a number stands among the items. A `for`: with `filter` and `count` Alike took 1.3 to 1.9 times as long.
fn times(items: &[u64], x: u64) -> usize
    ensures { result ≡ count x items.now }
{
    let mut n: usize = 0;
    for &item in items {
        if item == x {
            n += 1;
        }
    }
    n
}

// Each of the items stands as often in a as in b.
fn equally_often(a: &[u64], b: &[u64], items: &[u64]) -> bool
    ensures { result ≡ equally_often a.now b.now items.now }
{
    items.iter().all(|&x| times(a, x) == times(b, x))
}

// Each number stands as often in a as in b. Where the two have the same length, it is enough to ask it of the numbers of a.
fn same_counts(a: &[u64], b: &[u64]) -> bool
    ensures { result ≡ same_counts a.now b.now }
{
    if a.len() != b.len() {
        return false;
    }
    equally_often(a, b, a)
}

// What is counted: extension types and parameter ids.
trait Counted: Copy {
    ghost counts_as: { Self → ℕ };

    // The number that it counts as.
    fn counts_as(self) -> u64
        ensures { result ≡ counts_as self };
}

impl Counted for ExtType {
    ghost counts_as = { type_number };

    fn counts_as(self) -> u64 {
        u64::from(self.0)
    }
}

// Each id that is 27 mod 31 counts as 27.
impl Counted for u64 {
    ghost counts_as = { alike_id };

    fn counts_as(self) -> u64 {
        if self % 31 == 27 { 27 } else { self }
    }
}

// The numbers that the items count as, and zeros after them. By their places: under `iter_mut().zip(..)` no invariant of the loop can name
// what was written.
fn numbers<T: Counted>(items: &[T]) -> [u64; 64]
    requires { length items.now ≤ 64 }
    ensures { result ≡ padded 64 0 (map T.counts_as items.now) }
{
    let mut numbers = [0u64; 64];
    for (i, &item) in items.iter().enumerate() {
        numbers[i] = item.counts_as();
    }
    numbers
}

// Two lists whose order is put aside.
fn same_in_any_order<T: Counted>(x: &[T], y: &[T]) -> bool
    requires { (length x.now ≤ 64) × (length y.now ≤ 64) }
    ensures { result ≡ same_counts (map T.counts_as x.now) (map T.counts_as y.now) }
{
    same_counts(&numbers(x)[..x.len()], &numbers(y)[..y.len()])
}

// Types and ids.
pub fn same_but_for_order(x: &Fingerprint, y: &Fingerprint) -> bool
    ensures { result ≡ same_counts_of x.now y.now }
{
    same_in_any_order(x.extensions(), y.extensions()) && same_in_any_order(x.ids(), y.ids())
}
