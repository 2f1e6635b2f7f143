// Numbers in the layout of include/crustdelta.h: each little endian, nothing between them. A writer writes over the front of a lent output;
// later bytes stay. A list is written with every place of its array, for then the compiler makes plain copies of it.
ghost use Rattle.std.specs.Prelude.{ℕ, ◌≡◌, [], ◌∷◌, ◌++◌, ◌*◌, ◌≤◌, map, length};
ghost use Rattle.wire.specs.Front.{front};
ghost use Rattle.fingerprint_layout.specs.Layout.{little, littles, name_numbers};
ghost use Rattle.fingerprint_layout.specs.Code.{zeros};

use fingerprint_lists::Span;

// A number in so many bytes.
pub trait Little: Copy {
    ghost WIDTH: { ℕ };

    ghost value: { Self → ℕ };

    const WIDTH: usize;

    // Writes the number.
    fn put(self, out: &mut [u8])
        requires { WIDTH ≤ length out.old }
        ensures { out.new ≡ front (little WIDTH (value self)) out.old };
}

impl Little for u16 {
    ghost WIDTH = { 2 };

    ghost value = { λ v. v };

    const WIDTH: usize = 2;

    fn put(self, out: &mut [u8]) {
        out[..2].copy_from_slice(&self.to_le_bytes());
    }
}

// A count or a place: its two low bytes.
impl Little for usize {
    ghost WIDTH = { 2 };

    ghost value = { λ n. n };

    const WIDTH: usize = 2;

    fn put(self, out: &mut [u8]) {
        ((self % 65536) as u16).put(out);
    }
}

impl Little for u64 {
    ghost WIDTH = { 8 };

    ghost value = { λ id. id };

    const WIDTH: usize = 8;

    fn put(self, out: &mut [u8]) {
        out[..8].copy_from_slice(&self.to_le_bytes());
    }
}

// Writes numbers one after the other. Each is put by its place: of what goes through `chunks_exact_mut` a proof knows the length alone.
pub fn put_numbers<T: Little>(out: &mut [u8], items: &[T])
    requires { T.WIDTH * length items.now ≤ length out.old }
    ensures { out.new ≡ front (littles T.WIDTH (map T.value items.now)) out.old }
{
    for (i, &item) in items.iter().enumerate() {
        item.put(&mut out[T::WIDTH * i..]);
    }
}

// Writes a range.
pub fn put_range(out: &mut [u8], s: Span)
    requires { 4 ≤ length out.old }
    ensures { out.new ≡ front (littles 2 (s.start ∷ s.length ∷ [])) out.old }
{
    s.start.put(out);
    s.length.put(&mut out[2..]);
}

// Writes nine counts, and the name: 24 bytes.
pub fn put_counts(out: &mut [u8], counts: &[usize; 9], name: Option<Span>)
    requires { 24 ≤ length out.old }
    ensures { out.new ≡ front (littles 2 (counts.now ++ name_numbers name)) out.old }
{
    put_numbers(out, counts);
    match name {
        Some(s) => put_numbers(&mut out[18..], &[1, s.start, s.length]),
        None => put_numbers(&mut out[18..], &[0usize, 0, 0]),
    }
}

// Writes n zeros.
pub fn clear(out: &mut [u8], n: usize)
    requires { n ≤ length out.old }
    ensures { out.new ≡ front (zeros n) out.old }
{
    out[..n].fill(0);
}
