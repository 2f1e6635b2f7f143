// What a line of a script is answered, and the answer to each command of the varints, the maker, the joiner, the cutter and the
// splitter (those of the reader are in answers_reader): a function for each, which makes the call and writes the text of what it answers.
// Where a call hands bytes back, they are put at the front of `last`, for the piece `_` of later lines.
#![tactic(auto)]

ghost use Rattle.varint.specs.Varint.{size_of, write_of, after_write, read_of};
ghost use Rattle.tls.specs.Make.{make_of, made_bytes, after_make};
ghost use Rattle.frames.specs.Join.{join, placed_of, join_of, out_after, marks_after};
ghost use Rattle.frames.specs.Cut.{frames_of, cut_of, after_cut};
ghost use Rattle.records.specs.Records.{record_at, record_of};
ghost use Rattle.wire.specs.Refusals.{question};
ghost use Rattle.std.specs.Prelude.{◌≡◌, [], ◌∷◌, ◌++◌, length, replicate};
ghost use Rattle.script_writing.specs.Decimal.{decimal_text};
ghost use Rattle.script_writing.specs.Answers.{WrittenAll};
ghost use Rattle.answers.specs.Said.{number, said_count, plainly, handing, Says, Hands};
ghost use Rattle.answers.specs.Faults.{fault_of};
ghost use Rattle.answers.specs.Answers.{refused_parts, buffer_parts, size_parts, write_parts, read_parts, make_parts, join_parts, frames_parts, split_parts, splitting};

use script::reading::NoPiece;
use script_writing::texts::{Part, put_all, put_number, put_text};
use std::fmt;
use wire::Refusal;

// Why a line is an error.
#[derive(Clone, Copy, PartialEq, Eq, Debug)]
pub enum Fault {
    NoCommand,
    Count,
    NoNumber,
    NoPiece,
    NoFile,
    LongOperand,
    LongLine,
}

impl fmt::Display for Fault {
    fn fmt<W: fmt::Write>(&self, f: &mut fmt::Formatter<W>) -> fmt::Result {
        f.write_str(match self {
            Fault::NoCommand => "there is no such command",
            Fault::Count => "the command has another number of operands, parted by single spaces",
            Fault::NoNumber => "a number is decimal and below 2^64",
            Fault::NoPiece => "bytes are pieces joined by +: hex, -, N*bb, \"text\", @path or _",
            Fault::NoFile => "the file cannot be read",
            Fault::LongOperand => "an operand has up to 131,072 bytes",
            Fault::LongLine => "a line has up to 524,288 bytes",
        })
    }
}

impl From<NoPiece> for Fault {
    ghost from_gives = { λ no fault. fault ≡ fault_of no };

    fn from(no: NoPiece) -> Fault {
        match no {
            NoPiece::Malformed => Fault::NoPiece,
            NoPiece::TooLong => Fault::LongOperand,
        }
    }
}

// What a line that is no error is answered: so many bytes of text; the same with the count of the bytes handed back; the same with
// the refusal. No Result: a refusal is an answer too, with its text.
#[derive(Clone, Copy, PartialEq, Eq, Debug)]
pub enum Said {
    Answer(usize),
    Handed(usize, usize),
    Refused(usize, Refusal),
}

impl Said {
    // How many bytes of text the answer has.
    pub fn text(self) -> usize
        ensures { result ≡ said_count self }
    {
        match self {
            Said::Answer(n) | Said::Handed(n, _) | Said::Refused(n, _) => n,
        }
    }
}

// A buffer of zeros. As a call of its own an array costs the proofs of its users nothing, where the array itself would.
pub fn room<const N: usize>() -> [u8; N]
    ensures { result ≡ replicate N 0 }
{
    [0u8; N]
}

// The answer to a call that is refused and has no buffer.
pub fn refuse(refusal: Refusal, out: &mut [u8]) -> Said
    ensures { Says (number (question refusal)) (refused_parts (question refusal)) result out.old out.new }
{
    Said::Refused(put_number(out, b"refused ", refusal.number()), refusal)
}

// The same, and the buffer.
fn refuse_with(refusal: Refusal, buffer: &[u8], out: &mut [u8]) -> Said
    ensures { Says (number (question refusal)) (refused_parts (question refusal) ++ buffer_parts buffer.now) result out.old out.new }
{
    let parts = [
        Part::Text(b"refused "),
        Part::Number(refusal.number()),
        Part::Text(b" "),
        Part::Bytes(buffer),
    ];
    Said::Refused(put_all(out, &parts), refusal)
}

// size VALUE
pub fn say_size(value: u64, out: &mut [u8]) -> Said
    ensures { Says (plainly (size_of value)) (size_parts (size_of value)) result out.old out.new }
{
    match varint::size(value) {
        Ok(width) => Said::Answer(put_number(out, b"width ", width as u64)),
        Err(refusal) => refuse(refusal, out),
    }
}

// write VALUE OUT
pub fn say_write(value: u64, buffer: &mut [u8], out: &mut [u8]) -> Said
    ensures { Says (plainly (write_of value (length buffer.old))) (write_parts (write_of value (length buffer.old)) (after_write value buffer.old)) result out.old out.new }
{
    match varint::write(value, buffer) {
        Ok(width) => {
            let parts = [
                Part::Text(b"width "),
                Part::Number(width as u64),
                Part::Text(b" "),
                Part::Bytes(buffer),
            ];
            Said::Answer(put_all(out, &parts))
        }
        Err(refusal) => refuse_with(refusal, buffer, out),
    }
}

// read BYTES
pub fn say_read(input: &[u8], out: &mut [u8]) -> Said
    ensures { Says (plainly (read_of input.now)) (read_parts (read_of input.now)) result out.old out.new }
{
    match varint::read(input) {
        Ok(x) => {
            let parts = [
                Part::Text(b"value "),
                Part::Number(x.value),
                Part::Text(b" width "),
                Part::Number(x.width as u64),
            ];
            Said::Answer(put_all(out, &parts))
        }
        Err(refusal) => refuse(refusal, out),
    }
}

// make PROFILE NAME SCID TAPE OUT
// Here and below OUT, what is handed back and the answer's text go one by one: each contract speaks of each.
pub fn say_make(
    profile: u64,
    name: &[u8],
    scid: &[u8],
    tape: &[u8],
    buffer: &mut [u8],
    last: &mut [u8],
    out: &mut [u8],
) -> Said
    ensures { Hands (handing (make_of profile name.now scid.now tape.now (length buffer.old)) (made_bytes profile name.now scid.now tape.now)) (make_parts (make_of profile name.now scid.now tape.now (length buffer.old)) (after_make profile name.now scid.now tape.now buffer.old)) result out.old out.new last.old last.new }
{
    match tls::making::generate_client_hello(profile, name, scid, tape, buffer) {
        Ok(hello) => {
            let parts = [
                Part::Text(b"length "),
                Part::Number(hello.length as u64),
                Part::Text(b" drawn "),
                Part::Number(hello.drawn as u64),
                Part::Text(b" "),
                Part::Bytes(buffer),
            ];
            let n = put_all(out, &parts);
            let end = hello.length;
            Said::Handed(n, put_text(last, &buffer[0..end]))
        }
        Err(refusal) => refuse_with(refusal, buffer, out),
    }
}

// Writes words and a number, and both buffers of the joiner.
fn put_buffers<'a>(
    out: &mut [u8],
    words: &'a [u8],
    number: u64,
    buffer: &'a [u8],
    marks: &'a [u8],
) -> usize
    ensures { WrittenAll ((words.now ∷ decimal_text number ∷ []) ++ (buffer_parts buffer.now ++ buffer_parts marks.now)) result out.old out.new }
{
    let parts = [
        Part::Text(words),
        Part::Number(number),
        Part::Text(b" "),
        Part::Bytes(buffer),
        Part::Text(b" "),
        Part::Bytes(marks),
    ];
    put_all(out, &parts)
}

// join FRAMES OUT MARKS
pub fn say_join(
    frames: &[u8],
    buffer: &mut [u8],
    marks: &mut [u8],
    last: &mut [u8],
    out: &mut [u8],
) -> Said
    ensures { Hands (handing (join_of frames.now buffer.old marks.old) (placed_of (join frames.now))) (join_parts (join_of frames.now buffer.old marks.old) (out_after frames.now buffer.old marks.old) (marks_after frames.now buffer.old marks.old)) result out.old out.new last.old last.new }
{
    match frames::joining::reassemble_crypto(frames, buffer, marks) {
        Ok(end) => {
            let n = put_buffers(out, b"end ", end as u64, buffer, marks);
            Said::Handed(n, put_text(last, &buffer[0..end]))
        }
        Err(refusal) => {
            let n = put_buffers(out, b"refused ", refusal.number(), buffer, marks);
            Said::Refused(n, refusal)
        }
    }
}

// frames C HELLO OUT
pub fn say_frames(c: u64, hello: &[u8], buffer: &mut [u8], last: &mut [u8], out: &mut [u8]) -> Said
    ensures { Hands (handing (cut_of c hello.now (length buffer.old)) (frames_of c hello.now)) (frames_parts (cut_of c hello.now (length buffer.old)) (after_cut c hello.now buffer.old)) result out.old out.new last.old last.new }
{
    match frames::cutting::write_frames(c, hello, buffer) {
        Ok(length) => {
            let parts = [
                Part::Text(b"length "),
                Part::Number(length as u64),
                Part::Text(b" "),
                Part::Bytes(buffer),
            ];
            let n = put_all(out, &parts);
            Said::Handed(n, put_text(last, &buffer[0..length]))
        }
        Err(refusal) => refuse_with(refusal, buffer, out),
    }
}

// split PLACE BLOB
pub fn say_split(place: u64, blob: &[u8], last: &mut [u8], out: &mut [u8]) -> Said
    ensures { Hands (splitting (record_at blob.now place) (record_of blob.now place)) (split_parts (record_at blob.now place) (record_of blob.now place)) result out.old out.new last.old last.new }
{
    let at = place as usize;
    match records::next_record(blob, at) {
        Ok(Some(after)) => {
            let part = records::split_records(blob, at);
            let parts = [
                Part::Text(b"record "),
                Part::Bytes(part),
                Part::Text(b" next "),
                Part::Number(after as u64),
            ];
            let n = put_all(out, &parts);
            Said::Handed(n, put_text(last, part))
        }
        Ok(None) => Said::Answer(put_text(out, b"end")),
        Err(refusal) => refuse(refusal, out),
    }
}
