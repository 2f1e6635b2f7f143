// The calls for compare/ that the C library (crustdelta_c) does not have, held against the Rust, over numbers and byte slices;
// compare_calls_c exports them.
#![tactic(auto)]

ghost use Rattle.std.specs.Prelude.{◌≡◌, ◌<◌, length};
ghost use Rattle.std.specs.Iterator.{at_most};
ghost use Rattle.wire.specs.Answer.{coded};
ghost use Rattle.varint.specs.Varint.{size_of, read_of};
ghost use Rattle.records.specs.Records.{record_at};
ghost use Rattle.fingerprint.specs.Reader.{read};
ghost use Rattle.fingerprint.specs.Calls.{extension_set};
ghost use Rattle.fingerprint.specs.Report.{parsed_of};
ghost use Rattle.fingerprint_stops.specs.Stops.{stopped_at};
ghost use Rattle.reports.specs.Lines.{set_text};
ghost use Rattle.compare_calls.specs.Sums.{coded_value, coded_width, sum_of, PutCoded, Reads};
ghost use Rattle.crustdelta_c.specs.Calls.{MakeCoded};
ghost use Rattle.compare_calls.specs.Calls.{drawn_of, coded_next, PartCoded};
ghost use Rattle.compare_calls.specs.Reading.{coded_stop, sum_at, picked_of, ReportCoded, TextCoded};

use answers::Said;
use crustdelta_c::coded;
use fingerprint::Fingerprint;

// The width, or 2^32 plus the number.
pub fn compare_varint_size(value: u64) -> u64
    ensures { result ≡ coded (size_of value) }
{
    coded(varint::size(value))
}

pub fn compare_varint_write(value: u64, out: &mut [u8]) -> u64
    ensures { PutCoded value out.old result out.new }
{
    coded(varint::write(value, out))
}

// The value, or 2^63 plus the number.
pub fn compare_varint_value(input: &[u8]) -> u64
    ensures { result ≡ coded_value (read_of input.now) }
{
    match varint::read(input) {
        Ok(x) => x.value,
        Err(refusal) => 9223372036854775808 + refusal.number(),
    }
}

// The width, or 2^32 plus the number.
pub fn compare_varint_width(input: &[u8]) -> u64
    ensures { result ≡ coded_width (read_of input.now) }
{
    coded(varint::read(input).map(|x| x.width))
}

// The values of the varints that stand one after another, up to the end or the first refusal.
#[derive(Drop)]
struct Varints<'a>(&'a [u8]);

impl<'a> Iterator for Varints<'a> {
    type Item = u64;

    ghost next_gives = { λ s value t. Reads s.0.now value t.0.now };

    ghost remaining = { λ s. at_most (length s.0.now) };

    fn next(&mut self) -> Option<u64> {
        let x = varint::read(self.0).ok()?;
        self.0 = &self.0[x.width..];
        Some(x.value)
    }
}

// The sum of the values, modulo 2^64: a run of reads to be timed.
pub fn compare_varint_sum(input: &[u8]) -> u64
    ensures { result ≡ sum_of input.now }
{
    let mut sum: u64 = 0;
    for value in Varints(input) {
        sum = sum.wrapping_add(value);
    }
    sum
}

// The count of bytes that the maker draws for a hello, or 2^32 plus the number.
pub fn compare_drawn(browser: u64, name: &[u8], scid: &[u8], tape: &[u8], out: &mut [u8]) -> u64
    ensures { MakeCoded drawn_of browser name.now scid.now tape.now out.old result out.new }
{
    let made = tls::making::generate_client_hello(browser, name, scid, tape, out);
    coded(made.map(|hello| hello.drawn))
}

// The place after the record, 2^33 at the end, or 2^32 plus the number.
pub fn compare_next(blob: &[u8], place: usize) -> u64
    ensures { result ≡ coded_next (record_at blob.now place) }
{
    match records::next_record(blob, place) {
        Ok(Some(after)) => after as u64,
        Ok(None) => 8589934592,
        Err(refusal) => coded(Err(refusal)),
    }
}

// The length of the part that the splitter hands back, which is copied to the output's front; 2^32 where that is too short.
pub fn compare_record(blob: &[u8], place: usize, out: &mut [u8]) -> u64
    ensures { PartCoded blob.now place out.old result out.new }
{
    let part = records::split_records(blob, place);
    if out.len() < part.len() {
        return 4294967296;
    }
    wire::put_bytes(out, part) as u64
}

// The length of the report's text, as the command `report` answers it, or 2^32 plus the number.
pub fn compare_report(hello: &[u8], out: &mut [u8]) -> u64
    ensures { ReportCoded (read hello.now) out.old result out.new }
{
    match answers_reader::say_report(hello, out) {
        Said::Refused(_, refusal) => coded(Err(refusal)),
        said => said.text() as u64,
    }
}

// The length of the text that answers the command `set`.
pub fn compare_set(hello: &[u8], out: &mut [u8]) -> u64
    ensures { TextCoded (set_text (extension_set (read hello.now))) out.old result out.new }
{
    answers_reader::say_set(hello, out).text() as u64
}

// Where the reader stops: 2^32 times the number, plus the place; 0 where the hello is accepted.
pub fn compare_stopped(hello: &[u8]) -> u64
    ensures { result ≡ coded_stop (stopped_at hello.now) }
{
    match fingerprint_stops::stopped_at(hello) {
        None => 0,
        Some(stop) => 4294967296 * stop.refusal.number() + stop.place as u64,
    }
}

// One place of each list of the report, added up modulo 2^64, or the number; 0 for a place past the shortest list. The whole report is built,
// and no list can be left out. To be timed.
pub fn compare_picked(hello: &[u8], place: usize) -> u64
    ensures { result ≡ picked_of (parsed_of (read hello.now)) place }
{
    if 16 <= place {
        return 0;
    }
    match fingerprint::reading::parse_clienthello(hello) {
        Ok(report) => picked(report, place),
        Err(refusal) => refusal.number(),
    }
}

fn picked(report: Fingerprint, place: usize) -> u64
    requires { place < 16 }
    ensures { result ≡ sum_at report place }
{
    u64::from(report.cipher_suites[place])
        .wrapping_add(u64::from(report.extensions[place].0))
        .wrapping_add(u64::from(report.supported_groups[place].0))
        .wrapping_add(u64::from(report.key_share_groups[place].0))
        .wrapping_add(u64::from(report.signature_algorithms[place]))
        .wrapping_add(u64::from(report.supported_versions[place]))
        .wrapping_add(report.alpn[place].start as u64)
        .wrapping_add(report.transport_param_ids[place])
}
