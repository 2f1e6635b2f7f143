// Numbers: in decimal, and in hex, lower case, each after a space. No `write!`: one that does not fit is left out as a whole (lib.rt).
ghost use Rattle.std.specs.Prelude.{◌≡◌, ◌∷◌, ◌≤◌, ◌<◌, length, map};
ghost use Rattle.wire.specs.Numbers.{digits};
ghost use Rattle.script.specs.Scan.{space};
ghost use Rattle.script_writing.specs.Digits.{places};
ghost use Rattle.script_writing.specs.Decimal.{decimal_width, decimal_text};
ghost use Rattle.script_writing.specs.Hex.{hex_letter, hex_width, hex_digits, word_text, id_text};
ghost use Rattle.script_writing.specs.Shown.{Written};

// How many digits a number has in a base; 0 has one.
pub fn width<const BASE: u64>(n: u64) -> usize
    requires { 2 ≤ BASE }
    ensures is { result ≡ places BASE 64 n }
    ensures most { result ≤ 64 }
{
    match n.checked_ilog(BASE) {
        Some(k) => k as usize + 1,
        None => 1,
    }
}

// How many decimal digits a number has.
pub fn decimal_width(n: u64) -> usize
    ensures { (result ≡ decimal_width n) × (result ≤ 20) }
{
    width::<10>(n)
}

// How many hex digits a number has.
fn hex_width(v: u64) -> usize
    ensures { (result ≡ hex_width v) × (result ≤ 16) }
{
    width::<16>(v)
}

// Fills the part with the number's low digits in a base up to 16, the lowest one last.
pub(crate) fn fill_digits<const BASE: u64>(part: &mut [u8], n: u64)
    requires { (2 ≤ BASE) × (BASE ≤ 16) }
    ensures { part.new ≡ map hex_letter (digits BASE (length part.old) n) }
{
    let mut rest = n;
    // An index and no item: of the elements that `rev` of an `iter_mut` lends a proof knows nothing afterwards.
    for k in (0..part.len()).rev() {
        part[k] = hex_letter((rest % BASE) as u8);
        rest /= BASE;
    }
}

// Writes a number in decimal, with the fewest digits.
pub fn put_decimal(out: &mut [u8], n: u64) -> usize
    ensures { Written (decimal_text n) result out.old out.new }
{
    let width = decimal_width(n);
    if out.len() < width {
        return 0;
    }
    fill_digits::<10>(&mut out[..width], n);
    width
}

// The digit that writes a value below 16.
pub fn hex_letter(v: u8) -> u8
    requires { v < 16 }
    ensures { result ≡ hex_letter v }
{
    if v < 10 { v + b'0' } else { v + 87 }
}

// Writes a space and the number's low digits, so many of them.
pub fn put_digits(out: &mut [u8], width: usize, v: u64) -> usize
    ensures { Written (space ∷ hex_digits width v) result out.old out.new }
{
    if out.len() <= width {
        return 0;
    }
    wire::w8(out, b' ');
    let end = width + 1;
    fill_digits::<16>(&mut out[1..end], v);
    end
}

// Writes a space and a 16-bit number: four digits.
pub fn put_word(out: &mut [u8], v: u16) -> usize
    ensures { Written (word_text v) result out.old out.new }
{
    put_digits(out, 4, u64::from(v))
}

// Writes a space and a parameter's id: the fewest digits.
pub fn put_id(out: &mut [u8], v: u64) -> usize
    ensures { Written (id_text v) result out.old out.new }
{
    put_digits(out, hex_width(v), v)
}
