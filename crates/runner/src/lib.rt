// Runs bench scripts: takes lines from a reader and answers each on standard output. The work on text is in the crate `script`,
// each command with its operands in `commands`, its answer in `answers`; here are the lines, and what is read and written. A write to
// standard output that fails ends a run with its error.
#![tactic(auto)]

pub mod failures;

ghost use Rattle.std.specs.Prelude.{◌≡◌, ◌≤◌, length, IfOk};
ghost use Rattle.answers.specs.Said.{said_count};
ghost use Rattle.script.specs.Input.{Held};

use answers::{Fault, Said, room};
use failures::fail;
use script::input::Input;
use script_writing::texts::{put_number, put_text};
use std::io;
use std::io::Read;
use std::rt::Files;

// The script language allows a line of 524,288 bytes and an operand of 131,072. What is handed back is no longer than an operand. The
// longest answers are listings: a line has up to some 110 bytes, and 16,384 bytes of a hello have at most 8,192 lines.
const CHUNK: usize = 65536;

const LINE: usize = 524288;

const LAST: usize = 131072;

const ANSWER: usize = 1048576;

// The lines of a script: what has been read of it, the line so far, and where they stand.
#[derive(Drop)]
struct Lines {
    chunk: [u8; CHUNK],
    line: [u8; LINE],
    input: Input,
    ghost held: { Held (length chunk) (length line) input },
}

// What `_` stands for: the first `count` bytes of a buffer, which is lent to be written and so is no slice.
#[derive(Drop)]
struct Last {
    bytes: [u8; LAST],
    count: usize,
    ghost held: { count ≤ length bytes },
}

// What an answer is written to, and what it may name and replace.
#[derive(Drop)]
struct Replies {
    last: Last,
    out: [u8; ANSWER],
}

// Before the first answer: `_` stands for no bytes.
fn start() -> Replies {
    Replies {
        last: Last {
            bytes: room::<LAST>(),
            count: 0,
        },
        out: room::<ANSWER>(),
    }
}

// A line that is to be answered. Of one that is too long these are the first bytes: they say whether it is a comment.
#[derive(Clone, Copy)]
struct Line<'a> {
    bytes: &'a [u8],
    number: u64,
    long: bool,
}

// Answers every line of the script that the reader gives; with notes, which begin with `#`, where they are asked for. Handles, as `rt`
// and `script`, are lent each on its own, here and below, and `notes` beside them: a struct of them would have a type parameter for each.
pub fn run(
    rt: &(impl Files + Print + Eprint),
    script: &mut impl Read,
    notes: bool,
) -> io::Result<()> {
    let mut lines = Lines {
        chunk: room::<CHUNK>(),
        line: room::<LINE>(),
        input: Input::start(),
    };
    let mut replies = start();
    // A proved loop has to end, and nothing says that a script does. So the loop has a count of turns that no run uses up.
    for _ in 0..u64::MAX {
        turn(rt, script, notes, &mut lines, &mut replies)?;
        if lines.input.over {
            break;
        }
    }
    Ok(())
}

// Answers one line, with notes.
pub fn run_line(rt: &(impl Files + Print), line: &[u8]) -> io::Result<()> {
    let line = Line {
        bytes: line,
        number: 1,
        long: false,
    };
    answer(rt, line, true, &mut start())
}

// Reads once where the chunk is used up.
fn fill(rt: &impl Eprint, script: &mut impl Read, chunk: &mut [u8], s: Input) -> Input
    requires { (s.start ≤ s.end) × (s.end ≤ length chunk.old) }
    ensures { (result.start ≤ result.end) × (result.end ≤ length chunk.old) × (result.length ≡ s.length) }
{
    if s.start < s.end {
        return s;
    }
    s.fill(read_some(rt, script, chunk))
}

// How many bytes one read put at the chunk's front. What cannot be read, as a folder, ends like an empty script, and standard error
// says why.
fn read_some(rt: &impl Eprint, script: &mut impl Read, chunk: &mut [u8]) -> usize
    ensures { result ≤ length chunk.old }
{
    match script.read(chunk) {
        Ok(n) => n,
        Err(e) => {
            fail(rt, "crustdelta: the script", &e);
            0
        }
    }
}

// Takes what the chunk has of the line, and answers the line where it is whole.
fn turn(
    rt: &(impl Files + Print + Eprint),
    script: &mut impl Read,
    notes: bool,
    lines: &mut Lines,
    replies: &mut Replies,
) -> io::Result<()> {
    let filled = fill(rt, script, &mut lines.chunk, lines.input);
    let taken = filled.take(&lines.chunk, &mut lines.line);
    if taken.whole {
        let line = Line {
            bytes: &lines.line[..taken.length],
            number: taken.number,
            long: taken.long,
        };
        answer(rt, line, notes, replies)?;
        lines.input = taken.next_line();
    } else {
        lines.input = taken;
    }
    Ok(())
}

// Answers a line. "A line that is empty or begins with `#` has no answer."
fn answer(
    rt: &(impl Files + Print),
    line: Line<'_>,
    notes: bool,
    replies: &mut Replies,
) -> io::Result<()> {
    if line.bytes.is_empty() || line.bytes[0] == b'#' {
        return Ok(());
    }
    if line.long {
        return error(rt, line.number, Fault::LongLine, notes, &mut replies.out);
    }
    answer_command(rt, line, notes, replies)
}

// Answers a line that is a command. What `_` stands for is lent meanwhile, so what the answer hands back goes to a buffer of its own
// first.
fn answer_command(
    rt: &(impl Files + Print),
    line: Line<'_>,
    notes: bool,
    replies: &mut Replies,
) -> io::Result<()> {
    let Replies { last, out } = replies;
    let mut handed = room::<LAST>();
    let said = commands::command(rt, line.bytes, &last.bytes[..last.count], &mut handed, out);
    tell(rt, said, line.number, notes, out)?;
    if let Ok(Said::Handed(_, k)) = said {
        last.count = put_text(&mut last.bytes, &handed[..k]);
    }
    Ok(())
}

// Writes what a line is answered.
fn tell(
    rt: &impl Print,
    said: Result<Said, Fault>,
    number: u64,
    notes: bool,
    out: &mut [u8],
) -> io::Result<()>
    requires { IfOk said (λ s. said_count s ≤ length out.old) }
{
    let said = match said {
        Ok(said) => said,
        Err(fault) => return error(rt, number, fault, notes, out),
    };
    say(rt, out, said.text())?;
    if let Said::Refused(_, refusal) = said {
        if notes {
            println!(rt; "# {}: {refusal}", refusal.number())?;
        }
    }
    Ok(())
}

// Ends the n bytes of an answer with a line feed and writes them.
fn say(rt: &impl Print, out: &mut [u8], n: usize) -> io::Result<()>
    requires { n ≤ length out.old }
{
    let end = n + put_text(&mut out[n..], b"\n");
    rt.write_all(&out[..end])
}

// Says that a line is an error; notes, which begin with `#`, are for people.
fn error(
    rt: &impl Print,
    number: u64,
    fault: Fault,
    notes: bool,
    out: &mut [u8],
) -> io::Result<()> {
    let n = put_number(out, b"error ", number);
    say(rt, out, n)?;
    if notes {
        println!(rt; "# {fault}")?;
    }
    Ok(())
}
