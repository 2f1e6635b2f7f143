// What a line of a listing begins with: its mark where the reader's stop lies in it, its place and its bytes; and the verdict with
// which a listing begins.
#![tactic(auto)]

ghost use Rattle.std.specs.Prelude.{◌≤◌, ◌≡◌, length};
ghost use Rattle.script_writing.specs.Shown.{Written};
ghost use Rattle.script_writing.specs.Answers.{WrittenAll};
ghost use Rattle.show_marks.specs.Text as specs;
ghost use Rattle.show_lines.specs.Lines.{row};
ghost use Rattle.wire.specs.Stops.{stop_of};
ghost use Rattle.show_marks.specs.Text.{marks, stop_by, blanks, mark_text, place_parts, short_parts, count_parts, run_parts};
ghost use Rattle.show_marks.specs.Text.{front_parts, verdict_parts};

use script_writing::bytes::put_hex;
use script_writing::numbers::put_digits;
use script_writing::texts::{put_number, put_text};
use wire::Stop;

const BLANKS: [u8; 24] = [b' '; 24];

// Whether the place at which the reader stopped lies in a line.
pub fn is_marked(stop: Option<Stop>, at: usize, end: usize) -> bool
    ensures { result ≡ marks (stop_of stop) (row at end 0) }
{
    stop.is_some_and(|s| at <= s.place && s.place < end)
}

// The number under which a stop is listed: that of its refusal. The writers take it beside the stop, since who calls them may have one that
// no refusal has.
pub fn number_of(stop: Option<Stop>) -> u64
    ensures { stop_by result stop ≡ stop_of stop }
{
    stop.map_or(0, |s| s.refusal.number())
}

// Writes the first line of a listing: that all is accepted, or the number of the refusal and its place.
pub fn put_verdict(out: &mut [u8], width: usize, stop: Option<Stop>) -> usize
    ensures { WrittenAll (verdict_parts width (stop_of stop)) result out.old out.new }
{
    put_verdict_by(out, width, number_of(stop), stop)
}

// The same under any number.
pub fn put_verdict_by(out: &mut [u8], width: usize, number: u64, stop: Option<Stop>) -> usize
    ensures { WrittenAll (verdict_parts width (stop_by number stop)) result out.old out.new }
{
    let Some(s) = stop else {
        return put_text(out, b"accepted");
    };
    let n = put_number(out, b"refused ", number);
    let m = n + put_text(&mut out[n..], b" at");
    m + put_digits(&mut out[m..], width, s.place as u64)
}

// Writes so many blanks, 24 at most.
fn put_blanks(out: &mut [u8], n: usize) -> usize
    ensures { Written (blanks n) result out.old out.new }
{
    let k = n.min(BLANKS.len());
    put_text(out, &BLANKS[..k])
}

fn put_mark(out: &mut [u8], marked: bool) -> usize
    ensures { Written (mark_text marked) result out.old out.new }
{
    if marked {
        put_text(out, b"\n>")
    } else {
        put_text(out, b"\n ")
    }
}

// Writes the start of a line: a mark or none, and the place in hex, in so many digits.
fn put_place(out: &mut [u8], marked: bool, width: usize, at: usize) -> usize
    ensures { WrittenAll (place_parts marked width at) result out.old out.new }
{
    let n = put_mark(out, marked);
    n + put_digits(&mut out[n..], width, at as u64)
}

// How many blanks fill a column of 22 after the first bytes of a long run and its length. Not by the width of the number: a run of 9 is filled
// like one of 10 to 99.
fn filling(length: usize) -> usize
    ensures { result ≡ specs.filling length }
{
    if length < 100 {
        return 4;
    }
    if length < 1000 {
        return 3;
    }
    if length < 10000 {
        return 2;
    }
    if length < 100000 {
        return 1;
    }
    0
}

// Writes up to 8 bytes.
fn put_short(out: &mut [u8], bytes: &[u8]) -> usize
    requires { length bytes.now ≤ 8 }
    ensures { WrittenAll (short_parts bytes.now) result out.old out.new }
{
    let n = put_text(out, b"  ");
    let m = n + put_hex(&mut out[n..], bytes);
    m + put_blanks(&mut out[m..], 22 - 2 * bytes.len())
}

// Writes how many bytes there are, and fills the column.
fn put_count(out: &mut [u8], length: usize) -> usize
    ensures { WrittenAll (count_parts length) result out.old out.new }
{
    let n = put_number(out, b"..(", length as u64);
    let m = n + put_text(&mut out[n..], b")");
    m + put_blanks(&mut out[m..], filling(length))
}

// Writes the bytes: up to 8 of them, or the first six of a longer run and its length.
fn put_run(out: &mut [u8], bytes: &[u8]) -> usize
    ensures { WrittenAll (run_parts bytes.now) result out.old out.new }
{
    if bytes.len() <= 8 {
        return put_short(out, bytes);
    }
    let n = put_text(out, b"  ");
    let m = n + put_hex(&mut out[n..], &bytes[0..6]);
    m + put_count(&mut out[m..], bytes.len())
}

// Writes a line's mark or none, its place in so many digits and its bytes.
pub fn put_front(out: &mut [u8], marked: bool, width: usize, at: usize, bytes: &[u8]) -> usize
    ensures { WrittenAll (front_parts marked width at bytes.now) result out.old out.new }
{
    let n = put_place(out, marked, width, at);
    n + put_run(&mut out[n..], bytes)
}
