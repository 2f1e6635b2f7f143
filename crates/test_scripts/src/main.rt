// Runs three scripts: two greetings, a copy of examples/two-greetings.script; lines and operands at the limits of the script language,
// which are too long to be kept in a file; and the fixed sample of the original Rust's answers, without notes. compare/run --sample
// writes replay.script, and what the Rust answered at the end of the file stdout, after the line that tells so.
#![tactic(auto)]

use std::io::Write;
use std::rt::Files;
use std::{fs, io};

const PAGE: usize = 4096;

// Writes a byte so many times.
fn write_run(file: &mut impl Write, byte: u8, times: usize) -> io::Result<()> {
    let page = [byte; PAGE];
    for _ in 0..times / PAGE {
        file.write_all(&page)?;
    }
    file.write_all(&page[..times % PAGE])
}

fn make_file(rt: &impl Files, path: &str, times: usize) -> io::Result<()> {
    let mut file = fs::create(rt, path)?;
    write_run(&mut file, b'%', times)
}

fn make_limits(rt: &impl Files, path: &str) -> io::Result<()> {
    let mut file = fs::create(rt, path)?;
    // a byte more than a line may have, and then a line as ever
    write_run(&mut file, b'x', 524289)?;
    file.write_all(b"\nsize 64\n")?;
    // as many as it may have: the line is read, and is no command
    write_run(&mut file, b'x', 524288)?;
    file.write_all(b"\n")?;
    // a comment has no answer, however long
    write_run(&mut file, b'#', 524289)?;
    // operands of 131,072 bytes and of one more; the last line lacks its line feed
    file.write_all(
        b"\nread 131072*25\nread 131073*25\nread @full\nread @full+-\nread @full+00\nread @over\nsize 63",
    )
}

fn run(rt: &(impl Files + Print + Eprint), path: &str, notes: bool) -> io::Result<()> {
    let mut script = fs::open(rt, path)?;
    runner::run(rt, &mut script, notes)
}

fn main(rt: HostRuntime) -> io::Result<()> {
    make_file(&rt, "full", 131072)?;
    make_file(&rt, "over", 131073)?;
    make_limits(&rt, "limits.script")?;
    rt.println("# two-greetings.script")?;
    run(&rt, "two-greetings.script", true)?;
    rt.println("# limits.script")?;
    run(&rt, "limits.script", true)?;
    rt.println("# replay.script: what the original Rust answered")?;
    run(&rt, "replay.script", false)
}
