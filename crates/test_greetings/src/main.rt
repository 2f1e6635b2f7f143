// Two greetings run end to end, for each two of the three profiles, with one name and with two. The first hello is sent in frames of 100
// bytes and the second in frames of 700, each made from a tape of its own, and the buffers hold other bytes before. A line has both
// profiles, both names, the numbers of the two reports, 0 where a hello was accepted, and whether the two are alike.
#![tactic(auto)]

ghost use Rattle.std.specs.Prelude.{◌≤◌, length};

use fingerprint::Fingerprint;
use frames::cutting::write_frames;
use std::io;
use third_demand::{Outcome, Side, two_greetings};
use tls::making::generate_client_hello;
use wire::Refusal;

// The frames of a hello that is made here, at the front of the output: how many bytes they have. None of these is refused; if one were, its
// line would say that no hello was joined.
fn put_frames(browser: u64, name: &[u8], scid: &[u8], tape: &[u8], c: u64, out: &mut [u8]) -> usize
    ensures { result ≤ length out.old }
{
    let mut hello = [0u8; 2048];
    let Ok(made) = generate_client_hello(browser, name, scid, tape, &mut hello) else {
        return 0;
    };
    write_frames(c, &hello[..made.length], out).unwrap_or(0)
}

// The number of the refusal; 0 where the hello was accepted.
fn number_of(report: Result<Fingerprint, Refusal>) -> u64 {
    match report {
        Ok(_) => 0,
        Err(refusal) => refusal.number(),
    }
}

// What stands on a line, one by one.
fn say(
    rt: &impl Print,
    browser: u64,
    name: &str,
    browser2: u64,
    name2: &str,
    outcome: Outcome,
) -> io::Result<()> {
    let number = number_of(outcome.first.report);
    let number2 = number_of(outcome.second.report);
    let alike = if outcome.alike { "yes" } else { "no" };
    println!(rt; "{browser} {browser2} {name} {name2} {number} {number2} {alike}")
}

fn greet(rt: &impl Print, browser: u64, name: &str, browser2: u64, name2: &str) -> io::Result<()> {
    let tape = [0x11u8; 1808];
    let tape2 = [0xeeu8; 1808];
    let scid = b"\x01\x02";
    let mut frames = [0u8; 4096];
    let mut frames2 = [0u8; 4096];
    let n = put_frames(browser, name.as_bytes(), scid, &tape, 100, &mut frames);
    let m = put_frames(browser2, name2.as_bytes(), b"", &tape2, 700, &mut frames2);
    let side = Side {
        browser,
        name: name.as_bytes(),
        scid,
        tape: &tape,
        frames: &frames[..n],
    };
    let side2 = Side {
        browser: browser2,
        name: name2.as_bytes(),
        scid: b"",
        tape: &tape2,
        frames: &frames2[..m],
    };
    let mut hello = [0u8; 2048];
    let mut hello2 = [0u8; 2048];
    let mut out = [0xa5u8; 16384];
    let mut out2 = [0x5au8; 16384];
    let mut marks = [0xffu8; 16384];
    let outcome = two_greetings(
        side,
        side2,
        &mut hello,
        &mut out,
        &mut hello2,
        &mut out2,
        &mut marks,
    );
    say(rt, browser, name, browser2, name2, outcome)
}

fn main(rt: HostRuntime) -> io::Result<()> {
    for browser in 0..3 {
        for browser2 in 0..3 {
            greet(&rt, browser, "example.org", browser2, "example.org")?;
            greet(&rt, browser, "example.org", browser2, "example.com")?;
        }
    }
    Ok(())
}
