// Reading: numbers, and the pieces of byte operands. A piece's bytes are written over the front of the output, later bytes
// stay, and where no bytes are read the output is untouched.
ghost use Rattle.std.specs.Prelude.{◌≡◌, ◌<◌, ◌≤◌, true, length, IfSome};
ghost use Rattle.wire.specs.Front.{front};
ghost use Rattle.script.specs.Scan.{all, found_of, Found};
ghost use Rattle.script.specs.Decimal.{number_of};
ghost use Rattle.script.specs.Hex.{hex_digit, digit_of, is_hex, hex_byte, pairs};
ghost use Rattle.script.specs.Piece.{piece_end, is_plain, bytes, text_of, hex_of, times_of, run_of, piece_of, Read};

// A piece of a byte operand that is read: so many bytes at the front of the output, or a file's bytes, which the caller reads.
#[derive(Clone, Copy, PartialEq, Eq, Debug)]
pub enum Piece {
    Bytes(usize),
    File,
}

// Why there is no piece: the text is none, or its bytes are more than the output has room for.
#[derive(Clone, Copy, PartialEq, Eq, Debug)]
pub enum NoPiece {
    Malformed,
    TooLong,
}

// The place of the first such byte at or after a place, as the definition of a piece's end asks for it (specs/Piece.antt).
pub fn find(s: &[u8], from: usize, byte: u8) -> Option<usize>
    ensures is { result ≡ found_of s.now from byte }
    ensures inside { IfSome result (λ n. (from ≤ n) × (n < length s.now)) }
{
    if s.len() <= from {
        return None;
    }
    let n = s[from..].iter().position(|b| *b == byte)?;
    Some(from + n)
}

// Reads a number: decimal and below 2^64. Not by `parse`, which takes a text, and a sign before the digits.
pub fn read_number(text: &[u8]) -> Option<u64>
    ensures { result ≡ number_of text.now }
{
    if text.is_empty() {
        return None;
    }
    let mut v: u64 = 0;
    for &b in text {
        if !b.is_ascii_digit() {
            return None;
        }
        v = v.checked_mul(10)?.checked_add(u64::from(b - b'0'))?;
    }
    Some(v)
}

// Where the piece that begins at a place ends.
pub fn piece_end(operand: &[u8], from: usize) -> usize
    ensures { Found (piece_end operand.now from) operand.now from result }
{
    if operand.len() <= from {
        return from;
    }
    if operand[from] != b'"' {
        return find(operand, from, b'+').unwrap_or(operand.len());
    }
    match find(operand, from + 1, b'"') {
        Some(close) => close + 1,
        None => operand.len(),
    }
}

// The value of a hex digit. `char::to_digit` takes a char and a base and gives a u32: no plainer between two casts.
#[tactic(auto, unfolding(crate::specs::Hex::hex_digit, crate::specs::Hex::is_hex))]
pub fn hex_digit(b: u8) -> Option<u8>
    ensures { result ≡ digit_of b }
{
    match b {
        b'0'..=b'9' => Some(b - b'0'),
        b'A'..=b'F' => Some(b - b'A' + 10),
        b'a'..=b'f' => Some(b - b'a' + 10),
        _ => None,
    }
}

fn is_hex(b: u8) -> bool
    ensures { result ≡ is_hex b }
{
    hex_digit(b).is_some()
}

fn all_hex(text: &[u8]) -> bool
    ensures { result ≡ all is_hex text.now }
{
    text.iter().all(|b| is_hex(*b))
}

// Whether a byte may stand between the quotes of a text.
#[tactic(auto, unfolding(crate::specs::Piece::is_plain))]
fn is_plain(b: u8) -> bool
    ensures { result ≡ is_plain b }
{
    b.is_ascii_graphic() && b != b'"'
}

// Whether every byte may.
pub fn all_plain(text: &[u8]) -> bool
    ensures { result ≡ all is_plain text.now }
{
    text.iter().all(|b| is_plain(*b))
}

// The value of a byte that is a hex digit: its low four bits, and nine more for a letter. Without the ranges of `hex_digit`: nobody can
// guess which of them the next digit lies in, so a branch on it costs far more than the sum.
#[tactic(auto, unfolding(crate::specs::Hex::hex_digit, crate::specs::Hex::is_hex))]
fn digit_value(b: u8) -> u8
    requires { is_hex b ≡ true }
    ensures { result ≡ hex_digit b }
{
    b % 16 + b / 64 * 9
}

#[tactic(auto, unfolding(crate::specs::Hex::hex_byte, crate::specs::Hex::is_hex))]
fn hex_byte(high: u8, low: u8) -> u8
    requires { (is_hex high ≡ true) × (is_hex low ≡ true) }
    ensures { result ≡ hex_byte high low }
{
    digit_value(high) * 16 + digit_value(low)
}

// The bytes themselves, where they fit.
fn read_given(given: &[u8], out: &mut [u8]) -> Result<Piece, NoPiece>
    ensures { Read (bytes given.now) result out.old out.new }
{
    if out.len() < given.len() {
        return Err(NoPiece::TooLong);
    }
    Ok(Piece::Bytes(wire::put_bytes(out, given)))
}

// Text between quotes.
fn read_text(text: &[u8], out: &mut [u8]) -> Result<Piece, NoPiece>
    ensures { Read (text_of text.now) result out.old out.new }
{
    let n = text.len();
    if n < 2 {
        return Err(NoPiece::Malformed);
    }
    let close = n - 1;
    if text[close] != b'"' {
        return Err(NoPiece::Malformed);
    }
    let inner = &text[1..close];
    if all_plain(inner) {
        read_given(inner, out)
    } else {
        Err(NoPiece::Malformed)
    }
}

// Writes the bytes of pairs of hex digits. Of what an adapter of `iter_mut` lends a proof knows nothing, so the output is not zipped with them.
fn put_pairs(out: &mut [u8], text: &[u8])
    requires { (all is_hex text.now ≡ true) × (length (pairs text.now) ≤ length out.old) }
    ensures { out.new ≡ front (pairs text.now) out.old }
{
    for (i, pair) in text.chunks_exact(2).enumerate() {
        out[i] = hex_byte(pair[0], pair[1]);
    }
}

// Hex, two digits a byte.
fn read_hex(text: &[u8], out: &mut [u8]) -> Result<Piece, NoPiece>
    ensures { Read (hex_of text.now) result out.old out.new }
{
    let n = text.len();
    if n == 0 || n % 2 != 0 {
        return Err(NoPiece::Malformed);
    }
    if all_hex(text) {
        if out.len() < n / 2 {
            return Err(NoPiece::TooLong);
        }
        put_pairs(out, text);
        Ok(Piece::Bytes(n / 2))
    } else {
        Err(NoPiece::Malformed)
    }
}

// The byte of two hex digits, n times.
fn read_times(n: u64, digits: &[u8], out: &mut [u8]) -> Result<Piece, NoPiece>
    ensures { Read (times_of n digits.now) result out.old out.new }
{
    if digits.len() != 2 {
        return Err(NoPiece::Malformed);
    }
    if all_hex(digits) {
        let times = n as usize;
        if out.len() < times {
            return Err(NoPiece::TooLong);
        }
        out[..times].fill(hex_byte(digits[0], digits[1]));
        Ok(Piece::Bytes(times))
    } else {
        Err(NoPiece::Malformed)
    }
}

// A run whose star stands at a place.
fn read_run(text: &[u8], star: usize, out: &mut [u8]) -> Result<Piece, NoPiece>
    requires { star < length text.now }
    ensures { Read (run_of text.now star) result out.old out.new }
{
    match read_number(&text[..star]) {
        Some(n) => read_times(n, &text[star + 1..], out),
        None => Err(NoPiece::Malformed),
    }
}

// Reads a piece of a byte operand; `last` is what `_` stands for.
pub fn read_piece(text: &[u8], last: &[u8], out: &mut [u8]) -> Result<Piece, NoPiece>
    ensures { Read (piece_of text.now last.now) result out.old out.new }
{
    match text {
        b"-" => Ok(Piece::Bytes(0)),
        b"_" => read_given(last, out),
        [b'@', ..] => Ok(Piece::File),
        [b'"', ..] => read_text(text, out),
        _ => match find(text, 0, b'*') {
            Some(star) => read_run(text, star, out),
            None => read_hex(text, out),
        },
    }
}
