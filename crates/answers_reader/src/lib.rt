// The answers to the commands of the reader, `alike` and the listings: a function for each, which makes the call and writes the text of what
// it answers. The other commands' are in answers.
#![tactic(auto)]

ghost use Rattle.fingerprint.specs.Reader.{read};
ghost use Rattle.fingerprint.specs.Calls.{name_or, extension_set};
ghost use Rattle.alike.specs.Alike.{alike};
ghost use Rattle.reports.specs.Lines.{name_answer, set_text};
ghost use Rattle.answers.specs.Said.{plain, hands, plainly, Says, Hands};
ghost use Rattle.answers_reader.specs.Answers.{report_answer, alike_parts};
ghost use Rattle.answers_reader.specs.Listings.{ShowsHello, ShowsFrames};

use answers::{Said, refuse, room};
use fingerprint::reading::{extension_set, name_or, parse_clienthello};
use fingerprint_stops::stopped_at;
use frames::joining::{LIMIT, joiner_stopped_at};
use reports::{put_name_answer, put_report, put_set};
use script_writing::texts::put_text;
use show_frames::put_frame_listing;
use show_hello::put_listing;

// report HELLO
pub fn say_report(hello: &[u8], out: &mut [u8]) -> Said
    ensures { Says (plainly (read hello.now)) (report_answer (read hello.now)) result out.old out.new }
{
    match parse_clienthello(hello) {
        Ok(report) => Said::Answer(put_report(out, hello, report)),
        Err(refusal) => refuse(refusal, out),
    }
}

// name HELLO DEFAULT
pub fn say_name<'a>(hello: &'a [u8], default: &'a [u8], last: &mut [u8], out: &mut [u8]) -> Said
    ensures { Hands (hands (name_or default.now (read hello.now))) (name_answer (name_or default.now (read hello.now))) result out.old out.new last.old last.new }
{
    let name = name_or(hello, default);
    let n = put_name_answer(out, name);
    Said::Handed(n, put_text(last, name))
}

// set HELLO
pub fn say_set(hello: &[u8], out: &mut [u8]) -> Said
    ensures { Says plain (set_text (extension_set (read hello.now))) result out.old out.new }
{
    let types = extension_set(hello);
    Said::Answer(put_set(out, types))
}

// alike HELLO HELLO
pub fn say_alike(a: &[u8], b: &[u8], out: &mut [u8]) -> Said
    ensures { Says plain (alike_parts (alike (read a.now) (read b.now))) result out.old out.new }
{
    if alike::alike(a, b) {
        Said::Answer(put_text(out, b"yes"))
    } else {
        Said::Answer(put_text(out, b"no"))
    }
}

// show HELLO
pub fn say_show(hello: &[u8], out: &mut [u8]) -> Said
    ensures { ShowsHello hello.now result out.old out.new }
{
    Said::Answer(put_listing(out, hello, stopped_at(hello)))
}

// show-frames FRAMES
pub fn say_show_frames(frames: &[u8], out: &mut [u8]) -> Said
    ensures { ShowsFrames frames.now result out.old out.new }
{
    // as short as the joiner takes them
    let mut buffer = room::<LIMIT>();
    let mut marks = room::<LIMIT>();
    let stop = joiner_stopped_at(frames, &mut buffer, &mut marks);
    Said::Answer(put_frame_listing(out, frames, stop))
}
