// The listing of a hello: one line for each field, extension and entry, with its place, its bytes and what they are. Where the reader
// refuses, the line at its place is marked and says why.
#![tactic(auto)]

mod words;

ghost use Rattle.std.specs.Prelude.{◌≤◌, length};
ghost use Rattle.wire.specs.Stops.{stop_of};
ghost use Rattle.show_lines.specs.Lines.{row, Reaches, Ready};
ghost use Rattle.show_lines.specs.Rows.{kind_number, cursor_of};
ghost use Rattle.show_marks.specs.Text.{last_row, stop_from, stop_by};
ghost use Rattle.show_words.specs.Code.{LineWritten, LinesWritten};
ghost use Rattle.show_hello.specs.Listing.{read_rows, Listed};

use show_lines::cursor::{Cursor, Line, Lines, part_end};
use show_lines::grammar::Kind;
use show_marks::{number_of, put_verdict_by};
use show_words::{Spot, put_last_line_by, put_line_by, stop_from};
use wire::Stop;
use words::Shown;

// The reader reads at most so many bytes, and no more are listed line by line.
const MOST: usize = 16384;

const DIGITS: usize = 4;

// Writes the line at the cursor. What it shares with a line of frames is `put_line_by`; what is told of it is its own.
fn put_row(
    out: &mut [u8],
    hello: &[u8],
    c: Cursor,
    line: Line,
    number: u64,
    stop: Option<Stop>,
) -> usize
    requires { Ready (length hello.now) (cursor_of c) × Reaches (length hello.now) (cursor_of c) line }
    ensures { LineWritten 4 hello.now (stop_by number stop) (row c.at line.end (kind_number c.kind)) result out.old out.new }
{
    let at = c.at;
    let end = line.end;
    let left = part_end(hello, c) - at - line.front.unwrap_or(0);
    let spot = Spot {
        digits: DIGITS,
        at,
        past: end,
    };
    let shown = Shown {
        kind: c.kind,
        bytes: &hello[at..end],
        line,
        left: left as u64,
    };
    put_line_by(out, hello, spot, number, stop, shown.told(stop))
}

// Of the end alone: what stands at a cursor show_lines says.
fn last_kind(at: usize, length: usize) -> Kind {
    if at < length { Kind::After } else { Kind::End }
}

// Writes the last line: the hello's end, or the bytes that are past what is read.
fn put_end(out: &mut [u8], hello: &[u8], at: usize, number: u64, stop: Option<Stop>) -> usize
    requires { at ≤ length hello.now }
    ensures { LineWritten 4 hello.now (stop_by number stop) (last_row hello.now at) result out.old out.new }
{
    let length = hello.len();
    let line = Line {
        end: length,
        front: None,
        said: 0,
    };
    let shown = Shown {
        kind: last_kind(at, length),
        bytes: &hello[at..],
        line,
        left: length as u64,
    };
    put_last_line_by(out, hello, DIGITS, at, number, stop, shown.told(stop))
}

// Writes the lines of up to 16,384 bytes.
fn put_lines(out: &mut [u8], hello: &[u8], number: u64, stop: Option<Stop>) -> usize
    requires { length hello.now ≤ 16384 }
    ensures { LinesWritten 4 hello.now (stop_by number stop) (read_rows hello.now) result out.old out.new }
{
    let mut used = 0;
    for (c, line) in Lines::new(hello) {
        used += put_row(&mut out[used..], hello, c, line, number, stop);
    }
    used
}

// Writes the listing of any bytes, where the stop has any number.
fn put_all(out: &mut [u8], hello: &[u8], number: u64, stop: Option<Stop>) -> usize
    ensures { Listed hello.now (stop_by number stop) result out.old out.new }
{
    let listed = hello.len().min(MOST);
    let n = put_verdict_by(out, DIGITS, number, stop);
    let m = n + put_lines(&mut out[n..], &hello[0..listed], number, stop);
    m + put_end(&mut out[m..], hello, listed, number, stop)
}

// Writes the listing of any bytes, of which the reader's stop is known.
pub fn put_listing(out: &mut [u8], hello: &[u8], stop: Option<Stop>) -> usize
    ensures { Listed hello.now (stop_of stop) result out.old out.new }
{
    put_all(out, hello, number_of(stop), stop)
}

// The same by the number of the stop, 0 where the hello is accepted, and its place. It may be a number that no refusal has.
pub fn put_listing_by(out: &mut [u8], hello: &[u8], number: u64, place: usize) -> usize
    ensures { Listed hello.now (stop_from number place) result out.old out.new }
{
    put_all(out, hello, number, stop_from(number, place))
}
