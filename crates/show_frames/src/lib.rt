// The listing of frames: one line for each CRYPTO and PING frame and for each run of PADDING, with its place, its bytes and what they
// are. Where the joiner refuses, the line at its place is marked and says why.
#![tactic(auto)]

ghost use Rattle.std.specs.Prelude.{◌+◌, ◌≤◌, ◌<◌, ◌^◌, ◌≡◌, ◌==◌, length};
ghost use Rattle.std.specs.List.{take_while};
ghost use Rattle.wire.specs.Stops.{stop_of};
ghost use Rattle.show_lines.specs.Lines.{row};
ghost use Rattle.show_marks.specs.Text.{last_row, stop_from, stop_by};
ghost use Rattle.show_words.specs.Code.{LineWritten};
ghost use Rattle.show_frames.specs.Frames.{line_size, RowsWritten, FramesListed};

use frames::reading::{CryptoFrame, Frame, read_frame};
use show_marks::{number_of, put_verdict_by};
use show_words::{Spot, Told, put_last_line_by, put_line_by, stop_from};
use wire::{Refusal, Stop};

// A list of frames may have up to 131,072 bytes, so a place has five hex digits.
const DIGITS: usize = 5;

// A line takes no more bytes than this; where fewer are left, what is not listed yet goes on the last line.
const ROOM: usize = 512;

// How many bytes 00 stand at the front.
fn zeros(input: &[u8]) -> usize
    ensures { result ≡ length (take_while (λ b. b == 0) input.now) }
{
    input.iter().take_while(|b| **b == 0).count()
}

// How many bytes the line at the front takes: a frame, a run of PADDING, or all where no frame can be read.
fn line_size(input: &[u8]) -> usize
    requires { 1 ≤ length input.now }
    ensures { (result ≡ line_size input.now) × (1 ≤ result) × (result ≤ length input.now) }
{
    match read_frame(input) {
        Ok(Frame::Padding) => zeros(input),
        Ok(Frame::Ping) => 1,
        Ok(Frame::Crypto(c)) => c.end,
        Err(_) => input.len(),
    }
}

// The question of the refusal where the joiner stopped.
fn reason(refusal: Refusal) -> &'static str {
    match refusal {
        Refusal::UnknownFrame => "this type is not known: 00 PADDING, 01 PING and 06 CRYPTO are",
        Refusal::FrameCut => "bytes of this frame are missing",
        Refusal::FramePastLimit => "this frame ends past 16384",
        Refusal::FramesDisagree => "this frame has another byte for a place that is filled",
        _ => "a place below the stream's end is not filled",
    }
}

// What is told by some words, and of a refusal there. The words name neither the line nor its part.
fn told(words: &'static str, stop: Option<Stop>) -> Told<'static> {
    Told {
        words,
        why: stop.map(|s| reason(s.refusal)),
        depth: 0,
        noun: "frame",
        part: "list",
        registered: None,
        front: None,
        said: 0,
        left: 0,
        value: None,
    }
}

// Of a CRYPTO frame: where its data begins in the stream, how long it is, and where it ends.
fn told_crypto(c: CryptoFrame, stop: Option<Stop>) -> Told<'static>
    requires { (c.start ≤ c.end) × (c.end < 2 ^ 63) × (c.offset < 2 ^ 62) }
{
    let length = (c.end - c.start) as u64;
    Told {
        said: length,
        left: c.offset + length,
        value: Some(c.offset),
        ..told("<CRYPTO offset %, # $, end +", stop)
    }
}

// Of the frame at the front.
fn told_frame(input: &[u8], stop: Option<Stop>) -> Told<'static> {
    match read_frame(input) {
        Ok(Frame::Padding) => Told {
            said: zeros(input) as u64,
            ..told("<PADDING, # $", stop)
        },
        Ok(Frame::Ping) => told("<PING", stop),
        Ok(Frame::Crypto(c)) => told_crypto(c, stop),
        Err(_) => told("<no frame", stop),
    }
}

// The lines of a list of frames from a place on: where each begins, and how many bytes it takes.
#[derive(Drop)]
struct Lines<'a> {
    frames: &'a [u8],
    at: usize,
}

impl<'a> Iterator for Lines<'a> {
    ghost use Rattle.std.specs.Prelude.{◌-◌, length};
    ghost use Rattle.std.specs.Iterator.{at_most};
    ghost use Rattle.show_frames.specs.Lines.{GivesLine};

    type Item = (usize, usize);

    ghost next_gives = { GivesLine };

    ghost remaining = { λ s. at_most (length s.frames.now - s.at) };

    fn next(&mut self) -> Option<(usize, usize)> {
        let at = self.at;
        if self.frames.len() <= at {
            return None;
        }
        let size = line_size(&self.frames[at..]);
        self.at = at + size;
        Some((at, size))
    }
}

// Writes the line of so many bytes at a place of the list. What it shares with a hello's line is `put_line_by`; what is told of it is its own.
fn put_row(
    out: &mut [u8],
    frames: &[u8],
    at: usize,
    size: usize,
    number: u64,
    stop: Option<Stop>,
) -> usize
    requires { at + size ≤ length frames.now }
    ensures { LineWritten 5 frames.now (stop_by number stop) (row at (at + size) 0) result out.old out.new }
{
    let spot = Spot {
        digits: DIGITS,
        at,
        past: at + size,
    };
    let t = told_frame(&frames[at..], stop);
    put_line_by(out, frames, spot, number, stop, t)
}

fn last_words(at: usize, length: usize) -> &'static str {
    if at < length {
        "<rest, for which there is no room"
    } else {
        "<end"
    }
}

// Writes the last line: the list's end, or what is left of it where the answer has no more room.
fn put_end(out: &mut [u8], frames: &[u8], at: usize, number: u64, stop: Option<Stop>) -> usize
    requires { at ≤ length frames.now }
    ensures { LineWritten 5 frames.now (stop_by number stop) (last_row frames.now at) result out.old out.new }
{
    let t = told(last_words(at, frames.len()), stop);
    put_last_line_by(out, frames, DIGITS, at, number, stop, t)
}

// Writes all lines, or as many as there is room for, and a last one. Those of a hello have no test of the room. No `for`: where the room is
// short it would have taken one line more than is written.
fn put_lines(out: &mut [u8], frames: &[u8], number: u64, stop: Option<Stop>) -> usize
    ensures { RowsWritten frames.now (stop_by number stop) result out.old out.new }
{
    let mut lines = Lines { frames, at: 0 };
    let mut used = 0;
    while ROOM <= out.len() - used {
        let Some((at, size)) = lines.next() else {
            break;
        };
        used += put_row(&mut out[used..], frames, at, size, number, stop);
    }
    used + put_end(&mut out[used..], frames, lines.at, number, stop)
}

// Writes the listing of any frames, where the stop has any number.
fn put_all(out: &mut [u8], frames: &[u8], number: u64, stop: Option<Stop>) -> usize
    ensures { FramesListed frames.now (stop_by number stop) result out.old out.new }
{
    let n = put_verdict_by(out, DIGITS, number, stop);
    n + put_lines(&mut out[n..], frames, number, stop)
}

// Writes the listing of any frames, of which the joiner's stop is known.
pub fn put_frame_listing(out: &mut [u8], frames: &[u8], stop: Option<Stop>) -> usize
    ensures { FramesListed frames.now (stop_of stop) result out.old out.new }
{
    put_all(out, frames, number_of(stop), stop)
}

// The same by the number of the stop, 0 where the frames are joined, and its place. It may be a number that no refusal has.
pub fn put_frame_listing_by(out: &mut [u8], frames: &[u8], number: u64, place: usize) -> usize
    ensures { FramesListed frames.now (stop_from number place) result out.old out.new }
{
    put_all(out, frames, number, stop_from(number, place))
}
