// The text of a report, of a name and of a set of types, as a script's answers show them ("Commands and answers": `report`, `name`,
// `set`). A writer writes over the front of a lent output and gives how many bytes it wrote; a part that does not fit is left out, and
// later bytes stay.
#![tactic(auto)]

pub mod lists; // 16-bit numbers, types, groups and ids, each a list after its label
pub mod names; // names, and the ranges of the hello that hold them

ghost use Rattle.script_writing.specs.Answers.{WrittenAll};
ghost use Rattle.reports.specs.Lines.{name_answer};
ghost use Rattle.reports.specs.Code.{first_parts, list_parts, last_parts, report_parts, set_parts};
ghost use Rattle.fingerprint.specs.InRange.{Filled, Sane};

use fingerprint::Fingerprint;
use fingerprint_lists::Types;
use lists::put_list;
use names::{put_protocols, put_sni};
use script_writing::names::put_name;
use script_writing::texts::{put_number, put_text};

// The lines of what stands before the extensions, and of their types.
fn put_first_lines(out: &mut [u8], report: &Fingerprint) -> usize
    ensures { WrittenAll (first_parts report.now) result out.old out.new }
{
    let mut at = put_number(
        out,
        b"report\n  session-id-length ",
        report.legacy_session_id_len as u64,
    );
    at += put_list(&mut out[at..], b"\n  cipher-suites", report.suites());
    at += put_list(&mut out[at..], b"\n  extensions", report.extensions());
    at
}

// The lines of the lists of numbers that extensions hold.
fn put_list_lines(out: &mut [u8], report: &Fingerprint) -> usize
    ensures { WrittenAll (list_parts report.now) result out.old out.new }
{
    let mut at = put_list(out, b"\n  supported-groups", report.groups());
    at += put_list(&mut out[at..], b"\n  key-share-groups", report.shares());
    at += put_list(
        &mut out[at..],
        b"\n  signature-algorithms",
        report.algorithms(),
    );
    at += put_list(&mut out[at..], b"\n  supported-versions", report.versions());
    at
}

// The lines of the names, and of the transport parameters.
fn put_last_lines(out: &mut [u8], hello: &[u8], report: &Fingerprint) -> usize
    requires { Sane hello.now report.now }
    ensures { WrittenAll (last_parts hello.now report.now) result out.old out.new }
{
    let mut at = put_protocols(out, hello, report.protocols());
    at += put_sni(&mut out[at..], hello, report.sni);
    at += put_list(&mut out[at..], b"\n  transport-parameters", report.ids());
    at
}

// Writes the lines of a report; the names are parts of the hello.
pub fn put_report(out: &mut [u8], hello: &[u8], report: Fingerprint) -> usize
    requires { Sane hello.now report }
    ensures { WrittenAll (report_parts hello.now report) result out.old out.new }
{
    let mut at = put_first_lines(out, &report);
    at += put_list_lines(&mut out[at..], &report);
    at += put_last_lines(&mut out[at..], hello, &report);
    at
}

// Writes a set of types, the one list here that is not a report's and has no method.
pub fn put_set(out: &mut [u8], types: Types) -> usize
    requires { Filled 64 types.items types.count }
    ensures { WrittenAll (set_parts types) result out.old out.new }
{
    put_list(out, b"types", &types.items[..types.count])
}

// Writes the answer of `name`.
pub fn put_name_answer(out: &mut [u8], name: &[u8]) -> usize
    ensures { WrittenAll (name_answer name.now) result out.old out.new }
{
    let n = put_text(out, b"name ");
    n + put_name(&mut out[n..], name)
}
