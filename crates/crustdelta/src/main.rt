// crustdelta [SCRIPT]: answers a bench script, from the file that its argument names or from standard input, line by line.
// crustdelta COMMAND OPERAND..: answers the one line that the arguments are, parted by single spaces.
#![tactic(auto)]

ghost use Rattle.std.specs.Prelude.{◌≤◌, length};

use answers::room;
use runner::failures::fail;
use script_writing::texts::put_text;
use std::env::FillError;
use std::rt::{Env, Files};
use std::{fs, io, str};

// What a path may have, and the line that the arguments are.
const PATH: usize = 4096;

const LINE: usize = 65536;

// The system's numbers of two errors: standard error says what the system says of these, and `ErrorKind` has other texts.
const EINVAL: i32 = 22;

const ENAMETOOLONG: i32 = 36;

// How many arguments there are, the program's name among them.
fn arg_count(rt: &impl Env) -> usize {
    (0..usize::MAX)
        .find(|i| matches!(rt.arg(*i, &mut []), Err(FillError::NotPresent)))
        .unwrap_or(usize::MAX)
}

// The error for an argument that is missing or too long.
fn error_of(e: FillError) -> io::Error {
    match e {
        FillError::NotPresent => io::Error::from_raw_os_error(EINVAL),
        FillError::TooLong => io::Error::from_raw_os_error(ENAMETOOLONG),
    }
}

// Opens the script that the first argument names. Where it cannot, standard error says what is wrong: here, where it is known what it was,
// so that there is none and no error goes on. A path is UTF-8 text.
fn open_script<R: Files + Env + Eprint>(rt: &R) -> Option<R::File> {
    let mut path = [0u8; PATH];
    let n = match rt.arg(1, &mut path) {
        Ok(n) => n,
        Err(e) => {
            fail(rt, "crustdelta: the script's path", &error_of(e));
            return None;
        }
    };
    let Ok(path) = str::from_utf8(&path[..n]) else {
        let e = io::Error::from(io::ErrorKind::InvalidFilename);
        fail(rt, "crustdelta: the script's path", &e);
        return None;
    };
    match fs::open(rt, path) {
        Ok(script) => Some(script),
        Err(e) => {
            fail(rt, path, &e);
            None
        }
    }
}

// Puts an argument at the buffer's front, and gives how many bytes it has. What does not fit is said on standard error.
fn put_argument(rt: &(impl Env + Eprint), i: usize, out: &mut [u8]) -> usize
    ensures { result ≤ length out.old }
{
    match rt.arg(i, out) {
        Ok(n) => n,
        Err(e) => {
            fail(rt, "crustdelta: an argument", &error_of(e));
            0
        }
    }
}

// Puts a space and an argument.
fn put_operand(rt: &(impl Env + Eprint), i: usize, out: &mut [u8]) -> usize
    ensures { result ≤ length out.old }
{
    let n = put_text(out, b" ");
    n + put_argument(rt, i, &mut out[n..])
}

// Puts the line that the arguments are.
fn put_line(rt: &(impl Env + Eprint), out: &mut [u8]) -> usize
    ensures { result ≤ length out.old }
{
    let count = arg_count(rt);
    let mut n = put_argument(rt, 1, out);
    // By number: the system is asked for an argument by its number.
    for i in 2..count {
        n += put_operand(rt, i, &mut out[n..]);
    }
    n
}

fn answer_arguments(rt: &(impl Files + Env + Print + Eprint), line: &mut [u8]) -> io::Result<()> {
    let n = put_line(rt, line);
    runner::run_line(rt, &line[0..n])
}

fn main(rt: HostRuntime) -> io::Result<()> {
    let count = arg_count(&rt);
    if 2 < count {
        let mut line = room::<LINE>();
        return answer_arguments(&rt, &mut line);
    }
    if count < 2 {
        return runner::run(&rt, &mut rt.stdin(), true);
    }
    match open_script(&rt) {
        Some(mut script) => runner::run(&rt, &mut script, true),
        None => Ok(()),
    }
}
