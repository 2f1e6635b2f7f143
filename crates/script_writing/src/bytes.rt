// Bytes: in hex, and as an answer shows them. No `write!`: a text that does not fit is left out as a whole (lib.rt).
ghost use Rattle.std.specs.Prelude.{◌≡◌, ◌==◌, ◌≤◌, length, reverse};
ghost use Rattle.std.specs.List.{take_while};
ghost use Rattle.wire.specs.Front.{front};
ghost use Rattle.script_writing.specs.Hex.{hex_pair, hex_text};
ghost use Rattle.script_writing.specs.Shown.{Written, trailing_run, run_text, joined_text, shown_text};

use crate::numbers::{decimal_width, fill_digits, put_decimal};
use crate::texts::put_text;

// Writes the two digits of a byte.
fn put_pair(out: &mut [u8], b: u8)
    requires { 2 ≤ length out.old }
    ensures { out.new ≡ front (hex_pair b) out.old }
{
    fill_digits::<16>(&mut out[..2], u64::from(b));
}

// Writes bytes in hex, lower case, two digits a byte.
pub fn put_hex(out: &mut [u8], bytes: &[u8]) -> usize
    ensures { Written (hex_text bytes.now) result out.old out.new }
{
    if out.len() / 2 < bytes.len() {
        return 0;
    }
    // A place and no `chunks_exact_mut`: of the elements that it lends a proof knows nothing afterwards.
    for (i, &b) in bytes.iter().enumerate() {
        put_pair(&mut out[2 * i..], b);
    }
    2 * bytes.len()
}

// How many bytes at the end equal a byte.
fn equal_end(bytes: &[u8], byte: u8) -> usize
    ensures { result ≡ length (take_while (λ b. b == byte) (reverse bytes.now)) }
{
    bytes.iter().rev().take_while(|b| **b == byte).count()
}

// How many bytes at the end are equal.
fn trailing_run(bytes: &[u8]) -> usize
    ensures { (result ≡ trailing_run bytes.now) × (result ≤ length bytes.now) }
{
    match bytes.last() {
        Some(&last) => equal_end(bytes, last),
        None => 0,
    }
}

// Writes a run: how often, a star, and the byte in hex.
fn put_run(out: &mut [u8], times: u64, byte: u8) -> usize
    ensures { Written (run_text times byte) result out.old out.new }
{
    let width = decimal_width(times);
    if out.len() < width + 3 {
        return 0;
    }
    put_decimal(out, times);
    out[width] = b'*';
    put_pair(&mut out[width + 1..], byte);
    width + 3
}

// Writes hex, a plus and a run.
fn put_joined(out: &mut [u8], head: &[u8], times: u64, byte: u8) -> usize
    ensures { Written (joined_text head.now (run_text times byte)) result out.old out.new }
{
    let after = decimal_width(times) + 4;
    if out.len() < after {
        return 0;
    }
    if (out.len() - after) / 2 < head.len() {
        return 0;
    }
    let at = put_hex(out, head);
    out[at] = b'+';
    put_run(&mut out[at + 1..], times, byte);
    at + after
}

// Writes bytes as an answer shows them, in the form of a byte operand.
pub fn put_operand(out: &mut [u8], bytes: &[u8]) -> usize
    ensures { Written (shown_text bytes.now) result out.old out.new }
{
    let n = bytes.len();
    if n == 0 {
        return put_text(out, b"-");
    }
    let run = trailing_run(bytes);
    if run < 8 {
        return put_hex(out, bytes);
    }
    let head = n - run;
    let last = bytes[n - 1];
    if head == 0 {
        return put_run(out, run as u64, last);
    }
    put_joined(out, &bytes[..head], run as u64, last)
}
