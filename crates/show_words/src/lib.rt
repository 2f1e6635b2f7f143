// A line of a listing: place and bytes, some words, and on the marked line the number of the refusal and its question in words. No
// contract says more of the words than that they are a text. They are phrases: each byte of a phrase stands for itself, but for those
// that `put_piece` names.
#![tactic(auto)]

ghost use Rattle.std.specs.Prelude.{ℕ, ◌≤◌, ◌≡◌, length};
ghost use Rattle.show_lines.specs.Lines.{row};
ghost use Rattle.show_marks.specs.Text.{last_row, stop_from, stop_by};
ghost use Rattle.wire.specs.Stops.{stop_of};
ghost use Rattle.show_words.specs.Code.{Wrote, ReasonWritten, LineWritten};

use registries::Registry;
use script_writing::names::put_name;
use script_writing::numbers::put_decimal;
use script_writing::texts::{put_number, put_text};
use show_marks::{is_marked, number_of, put_front};
use wire::{Refusal, Stop};

// Where a line stands: its first place, and the first one after it. A place has so many digits.
#[derive(Clone, Copy, PartialEq, Eq, Debug)]
pub struct Spot {
    pub digits: usize,
    pub at: usize,
    pub past: usize,
}

// What is told of a line: its words and why the reader stopped at it, both phrases, and what these may name: how deep the line is
// nested, what it and its part are called, a number with the registry that names it, the bytes of its front, the length that it says,
// how many bytes are left or where a frame ends, and a value. A phrase that names the length or what is left is one of a line that has them, so these two are
// no Option, which each of the five pieces that write them would open.
#[derive(Clone, Copy, Debug)]
pub struct Told<'a> {
    pub words: &'a str,
    pub why: Option<&'a str>,
    pub depth: usize,
    pub noun: &'a str,
    pub part: &'a str,
    pub registered: Option<(Registry, u64)>,
    pub front: Option<usize>,
    pub said: u64,
    pub left: u64,
    pub value: Option<u64>,
}

// Writes some words.
fn put_some(out: &mut [u8], words: &str) -> usize
    ensures { Wrote result out.old out.new }
{
    put_text(out, words.as_bytes())
}

fn put_byte(out: &mut [u8], b: u8) -> usize
    ensures { Wrote result out.old out.new }
{
    put_text(out, &[b])
}

fn put_numeral(out: &mut [u8], n: u64) -> usize
    ensures { Wrote result out.old out.new }
{
    put_decimal(out, n)
}

// Writes one of two words, by whether a number is 1.
fn put_by_count(out: &mut [u8], n: u64, one: &str, other: &str) -> usize
    ensures { Wrote result out.old out.new }
{
    if n == 1 {
        put_some(out, one)
    } else {
        put_some(out, other)
    }
}

// Writes two blanks, and two more for each part around the line, of which there are up to three.
fn put_indent(out: &mut [u8], depth: usize) -> usize
    ensures { Wrote result out.old out.new }
{
    put_text(out, &b"        "[..2 * depth.min(3) + 2])
}

// Whether a number is one of those that are kept free: both bytes xa, x the same (RFC 8701). It stays a number, so there is nothing to
// convert.
fn is_grease(v: u64) -> bool {
    v / 256 == v % 256 && v % 16 == 10
}

// The same of a parameter's id (RFC 9000, section 18.1).
fn is_reserved(id: u64) -> bool {
    id % 31 == 27
}

// Writes the name that a registry gives to a number.
fn put_registered(out: &mut [u8], registered: Option<(Registry, u64)>) -> usize
    ensures { Wrote result out.old out.new }
{
    let Some((registry, v)) = registered else {
        return 0;
    };
    let grease = if registry == Registry::Parameters {
        is_reserved(v)
    } else {
        is_grease(v)
    };
    registry.put_name(out, grease, v)
}

// Writes the bytes after a line's front as a name.
fn put_after(out: &mut [u8], bytes: &[u8], front: Option<usize>) -> usize
    ensures { Wrote result out.old out.new }
{
    match front.and_then(|n| bytes.get(n..)) {
        Some(name) => put_name(out, name),
        None => 0,
    }
}

fn put_value(out: &mut [u8], value: Option<u64>) -> usize
    ensures { Wrote result out.old out.new }
{
    match value {
        Some(n) => put_numeral(out, n),
        None => 0,
    }
}

// Writes what a byte of a phrase stands for. A match with a line for each: a table of functions would be no plainer. A phrase is a text and
// no list of an enum's pieces, which would take a line for each piece where a text reads as what is said. The bytes go beside what is told,
// since who tells it need not hold them.
fn put_piece(out: &mut [u8], piece: u8, told: Told<'_>, bytes: &[u8]) -> usize
    ensures { Wrote result out.old out.new }
{
    match piece {
        b'<' => put_indent(out, told.depth),
        b'@' => put_some(out, told.noun),
        b'&' => put_some(out, told.part),
        b'=' => put_registered(out, told.registered),
        b'"' => put_after(out, bytes, told.front),
        b'#' => put_numeral(out, told.said),
        b'$' => put_by_count(out, told.said, "byte", "bytes"),
        b'+' => put_numeral(out, told.left),
        b'~' => put_by_count(out, told.left, "byte", "bytes"),
        b'^' => put_by_count(out, told.left, "is", "are"),
        b'%' => put_value(out, told.value),
        _ => put_byte(out, piece),
    }
}

// Writes a phrase.
fn put_phrase(out: &mut [u8], phrase: &str, told: Told<'_>, bytes: &[u8]) -> usize
    ensures { Wrote result out.old out.new }
{
    let mut used = 0;
    for &piece in phrase.as_bytes() {
        used += put_piece(&mut out[used..], piece, told, bytes);
    }
    used
}

// Writes the number of a refusal and its question in words.
fn put_reason(out: &mut [u8], number: u64, told: Told<'_>, bytes: &[u8]) -> usize
    ensures { ReasonWritten number result out.old out.new }
{
    let n = put_number(out, b"  -- ", number);
    let m = n + put_text(&mut out[n..], b": ");
    match told.why {
        Some(why) => m + put_phrase(&mut out[m..], why, told, bytes),
        None => m,
    }
}

// The refusals that a line of frames or of a hello tells in words of their own; it has the same words for all others.
const WORDED: [Refusal; 8] = [
    Refusal::UnknownFrame,
    Refusal::FrameCut,
    Refusal::FramePastLimit,
    Refusal::FramesDisagree,
    Refusal::HelloTooLong,
    Refusal::NoClientHello,
    Refusal::ParameterTwice,
    Refusal::ListTooLong,
];

// The stop that a number and a place stand for; there is none for number 0. It is told in the words of the refusal that has the number, and
// where none has it, in those that a line has for all others.
pub fn stop_from(number: u64, place: usize) -> Option<Stop>
    ensures { stop_by number result ≡ stop_from number place }
{
    if number == 0 {
        return None;
    }
    let worded = WORDED.iter().find(|r| r.number() == number);
    Some(Stop {
        refusal: worded.copied().unwrap_or(Refusal::FieldMalformed),
        place,
    })
}

// Writes the line of an input's bytes that stands at a place, of whatever kind. Output, input and stop go one by one, here, in show_hello and
// in show_frames: each contract speaks of each, and a struct would only put a name before each.
pub fn put_line(
    out: &mut [u8],
    input: &[u8],
    spot: Spot,
    stop: Option<Stop>,
    told: Told<'_>,
) -> usize
    requires { (spot.at ≤ length input.now) × (spot.at ≤ spot.past) }
    ensures { (what : ℕ) → LineWritten spot.digits input.now (stop_of stop) (row spot.at spot.past what) result out.old out.new }
{
    put_line_by(out, input, spot, number_of(stop), stop, told)
}

// The same where the stop has any number.
pub fn put_line_by(
    out: &mut [u8],
    input: &[u8],
    spot: Spot,
    number: u64,
    stop: Option<Stop>,
    told: Told<'_>,
) -> usize
    requires { (spot.at ≤ length input.now) × (spot.at ≤ spot.past) }
    ensures { (what : ℕ) → LineWritten spot.digits input.now (stop_by number stop) (row spot.at spot.past what) result out.old out.new }
{
    let at = spot.at;
    let end = spot.past.min(input.len());
    let bytes = &input[at..end];
    let marked = is_marked(stop, at, spot.past);
    let n = put_front(out, marked, spot.digits, at, bytes);
    let m = n + put_phrase(&mut out[n..], told.words, told, bytes);
    match stop {
        Some(_) if marked => m + put_reason(&mut out[m..], number, told, bytes),
        _ => m,
    }
}

// Writes the last line of an input, which begins at a place: the input's end, or what is left of it.
pub fn put_last_line(
    out: &mut [u8],
    input: &[u8],
    digits: usize,
    at: usize,
    stop: Option<Stop>,
    told: Told<'_>,
) -> usize
    requires { at ≤ length input.now }
    ensures { LineWritten digits input.now (stop_of stop) (last_row input.now at) result out.old out.new }
{
    put_last_line_by(out, input, digits, at, number_of(stop), stop, told)
}

// The same where the stop has any number.
pub fn put_last_line_by(
    out: &mut [u8],
    input: &[u8],
    digits: usize,
    at: usize,
    number: u64,
    stop: Option<Stop>,
    told: Told<'_>,
) -> usize
    requires { at ≤ length input.now }
    ensures { LineWritten digits input.now (stop_by number stop) (last_row input.now at) result out.old out.new }
{
    let spot = Spot {
        digits,
        at,
        past: input.len() + 1,
    };
    put_line_by(out, input, spot, number, stop, told)
}
