// The C library: the calls of include/crustdelta.h, over numbers and byte slices; crustdelta_c_c exports them to C. Each answers the result,
// or 2^32 plus the number of the refusal. A number is taken as it is passed, 64 bits wide.
#![tactic(auto)]

ghost use Rattle.std.specs.Prelude.{◌≡◌, ◌+◌, ◌^◌, ◌≤◌, cond};
ghost use Rattle.wire.specs.Answer.{coded};
ghost use Rattle.wire.specs.Refusals.{answer_of};
ghost use Rattle.fingerprint.specs.Reader.{read};
ghost use Rattle.fingerprint_layout.specs.Layout.{ReportCoded};
ghost use Rattle.alike.specs.Alike as definition;
ghost use Rattle.crustdelta_c.specs.Calls.{length_of, MakeCoded, read_answer, JoinCoded, CutCoded, reason_number, Reports};
ghost use Rattle.crustdelta_c.specs.declared.NoReport.TheVariants.{Refused};

use fingerprint::head::read_head;
use fingerprint::walk::survey_block;
use fingerprint_layout::put_report;
use wire::Refusal;

// The number of a refusal, as an answer.
fn refused(number: u64) -> u64
    requires { number ≤ 100 }
    ensures { result ≡ 2 ^ 32 + number }
{
    4294967296 + number
}

// An answer as one number.
pub fn coded(answer: Result<usize, Refusal>) -> u64
    ensures { result ≡ coded (answer_of answer) }
{
    match answer {
        Ok(n) => n as u64,
        Err(refusal) => refused(refusal.number()),
    }
}

// Makes a hello: its length.
pub fn crustdelta_make(profile: u64, name: &[u8], scid: &[u8], tape: &[u8], out: &mut [u8]) -> u64
    ensures { MakeCoded length_of profile name.now scid.now tape.now out.old result out.new }
{
    let made = tls::making::generate_client_hello(profile, name, scid, tape, out);
    coded(made.map(|hello| hello.length))
}

// Reads a hello: 0. No report is built.
pub fn crustdelta_read(hello: &[u8]) -> u64
    ensures { result ≡ read_answer (read hello.now) }
{
    match fingerprint::reading::refusal(hello) {
        None => 0,
        Some(refusal) => coded(Err(refusal)),
    }
}

// How many bytes a report has.
const REPORT: usize = 1368;

// Why no report is written.
#[derive(Clone, Copy, PartialEq, Eq, Debug)]
pub enum NoReport {
    Refused(Refusal),
    NoRoom,
}

impl NoReport {
    // The number of the refusal; 100, which no question of document 01 has, where the report does not fit. A method, as a Refusal's
    // number is one: `u64::from` would not say which number it is.
    fn number(self) -> u64
        ensures { (result ≡ reason_number self) × (result ≤ 100) }
    {
        match self {
            NoReport::Refused(refusal) => refusal.number(),
            NoReport::NoRoom => 100,
        }
    }
}

impl From<Refusal> for NoReport {
    ghost from_gives = { λ refusal reason. reason ≡ Refused refusal };

    fn from(refusal: Refusal) -> NoReport {
        NoReport::Refused(refusal)
    }
}

fn write_report(hello: &[u8], out: &mut [u8]) -> Result<usize, NoReport>
    ensures { Reports (read hello.now) out.old result out.new }
{
    let head = read_head(hello)?;
    let mut types = [0u16; 64];
    let mut ids = [0u64; 64];
    let found = survey_block(hello, head.block, &mut types, &mut ids)?;
    if out.len() < REPORT {
        return Err(NoReport::NoRoom);
    }
    put_report(out, hello, head, found, &types, &ids);
    Ok(REPORT)
}

// Reads a hello and writes its report, straight from the hello's bytes: the report's length. Where the report does not fit, the number is
// 100.
pub fn crustdelta_report(hello: &[u8], out: &mut [u8]) -> u64
    ensures { ReportCoded (read hello.now) out.old result out.new }
{
    match write_report(hello, out) {
        Ok(length) => length as u64,
        Err(reason) => refused(reason.number()),
    }
}

// Joins frames: the end of the stream.
pub fn crustdelta_join(frames: &[u8], out: &mut [u8], marks: &mut [u8]) -> u64
    ensures { JoinCoded frames.now out.old marks.old result out.new marks.new }
{
    coded(frames::joining::reassemble_crypto(frames, out, marks))
}

// Cuts a hello into frames of c bytes of data each: their length in all.
pub fn crustdelta_frames(c: u64, hello: &[u8], out: &mut [u8]) -> u64
    ensures { CutCoded c hello.now out.old result out.new }
{
    coded(frames::cutting::write_frames(c, hello, out))
}

// Whether two hellos are alike: 1 or 0.
pub fn crustdelta_alike(a: &[u8], b: &[u8]) -> u64
    ensures { result ≡ cond (definition.alike (read a.now) (read b.now)) 1 0 }
{
    u64::from(alike::alike(a, b))
}
