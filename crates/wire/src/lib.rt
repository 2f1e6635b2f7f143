// What more than one crate cites: 16- and 24-bit numbers in network byte order (`be16` of fingerprint.rs, `w16` and `w24` of
// tls.rs), and bytes copied to the front of a lent output. Later bytes of an output stay.
#![tactic(auto)]

pub mod refusals;

ghost use Rattle.std.specs.Prelude.{ℕ, ◌≡◌, [], ◌∷◌, ◌*◌, ◌≤◌, ◌<◌, length, map, take};
ghost use Rattle.wire.specs.Numbers.{digits, number};
ghost use Rattle.wire.specs.Front.{front, Put};
ghost use Rattle.wire.specs.Vectors.{words};

pub use refusals::Refusal;

// The 16-bit number at the front of b.
pub fn be16(b: &[u8]) -> u16
    requires { 2 ≤ length b.now }
    ensures { result ≡ number 256 (take 2 b.now) }
{
    u16::from_be_bytes([b[0], b[1]])
}

// Writes the N low bytes of v, highest first.
pub fn put_be<const N: usize>(out: &mut [u8], v: u64)
    requires { (N ≤ 8) × (N ≤ length out.old) }
    ensures { out.new ≡ front (digits 256 N v) out.old }
{
    out[..N].copy_from_slice(&v.to_be_bytes()[8 - N..]);
}

// Writes a byte.
pub fn w8(out: &mut [u8], v: u8)
    requires { 1 ≤ length out.old }
    ensures { out.new ≡ front (v ∷ []) out.old }
{
    put_be::<1>(out, u64::from(v));
}

// Writes the two bytes of v.
pub fn w16(out: &mut [u8], v: u16)
    requires { 2 ≤ length out.old }
    ensures { out.new ≡ front (digits 256 2 v) out.old }
{
    put_be::<2>(out, u64::from(v));
}

// Writes the three low bytes of v.
pub fn w24(out: &mut [u8], v: u32)
    requires { 3 ≤ length out.old }
    ensures { out.new ≡ front (digits 256 3 v) out.old }
{
    put_be::<3>(out, u64::from(v));
}

// Copies src to the front of out and gives its length. By a loop, which becomes moves of 16 bytes: `copy_from_slice` becomes a call of
// `memmove`, which the archives would then need from outside beside `memcpy` and `memset`. On long parts the call is faster: 16,384 bytes
// are cut into frames of 1,200 in 170 ns with it and in 340 with the loop, on short ones it is not.
pub fn put_bytes(out: &mut [u8], src: &[u8]) -> usize
    requires { length src.now ≤ length out.old }
    ensures { Put src.now result out.old out.new }
{
    for (i, &b) in src.iter().enumerate() {
        out[i] = b;
    }
    src.len()
}

// A 16-bit number, or a type that stands for one.
pub trait Word: Copy {
    ghost word: { Self → ℕ };

    fn word(self) -> u16
        ensures { result ≡ word self };
}

impl Word for u16 {
    ghost word = { λ v. v };

    fn word(self) -> u16 {
        self
    }
}

// Writes 16-bit numbers one after the other and gives the count of bytes.
pub fn put_words<T: Word>(out: &mut [u8], values: &[T]) -> usize
    requires { 2 * length values.now ≤ length out.old }
    ensures { Put (words (map T.word values.now)) result out.old out.new }
{
    for (i, &v) in values.iter().enumerate() {
        w16(&mut out[2 * i..], v.word());
    }
    2 * values.len()
}

// Where a reader or joiner stopped: the refusal, and the place at which its question was answered "no".
#[derive(Clone, Copy, PartialEq, Eq, Debug)]
pub struct Stop {
    pub refusal: Refusal,
    pub place: usize,
}
