// The archive that compare/ links: the calls of `compare_calls`, numbers and byte slices with C's calling convention. Each promises what
// the library's call of the same name does.
#![tactic(auto)]

ghost use Rattle.std.specs.Prelude.{◌≡◌};
ghost use Rattle.wire.specs.Answer.{coded};
ghost use Rattle.varint.specs.Varint.{size_of, read_of};
ghost use Rattle.records.specs.Records.{record_at};
ghost use Rattle.fingerprint.specs.Reader.{read};
ghost use Rattle.fingerprint.specs.Calls.{extension_set};
ghost use Rattle.fingerprint.specs.Report.{parsed_of};
ghost use Rattle.fingerprint_stops.specs.Stops.{stopped_at};
ghost use Rattle.reports.specs.Lines.{set_text};
ghost use Rattle.compare_calls.specs.Sums.{coded_value, coded_width, sum_of, PutCoded};
ghost use Rattle.crustdelta_c.specs.Calls.{MakeCoded};
ghost use Rattle.compare_calls.specs.Calls.{drawn_of, coded_next, PartCoded};
ghost use Rattle.compare_calls.specs.Reading.{coded_stop, picked_of, ReportCoded, TextCoded};

// The width, or 2^32 plus the number.
#[unsafe(no_mangle)]
pub extern "C" fn compare_varint_size(value: u64) -> u64
    ensures { result ≡ coded (size_of value) }
{
    compare_calls::compare_varint_size(value)
}

#[unsafe(no_mangle)]
pub extern "C" fn compare_varint_write(value: u64, out: &mut [u8]) -> u64
    ensures { PutCoded value out.old result out.new }
{
    compare_calls::compare_varint_write(value, out)
}

// The value, or 2^63 plus the number.
#[unsafe(no_mangle)]
pub extern "C" fn compare_varint_value(input: &[u8]) -> u64
    ensures { result ≡ coded_value (read_of input.now) }
{
    compare_calls::compare_varint_value(input)
}

// The width, or 2^32 plus the number.
#[unsafe(no_mangle)]
pub extern "C" fn compare_varint_width(input: &[u8]) -> u64
    ensures { result ≡ coded_width (read_of input.now) }
{
    compare_calls::compare_varint_width(input)
}

// The sum of the values read one after another, up to the end or the first refusal, modulo 2^64: a run of reads to be timed.
#[unsafe(no_mangle)]
pub extern "C" fn compare_varint_sum(input: &[u8]) -> u64
    ensures { result ≡ sum_of input.now }
{
    compare_calls::compare_varint_sum(input)
}

// The count of bytes that the maker draws for a hello, or 2^32 plus the number.
#[unsafe(no_mangle)]
pub extern "C" fn compare_drawn(
    browser: u64,
    name: &[u8],
    scid: &[u8],
    tape: &[u8],
    out: &mut [u8],
) -> u64
    ensures { MakeCoded drawn_of browser name.now scid.now tape.now out.old result out.new }
{
    compare_calls::compare_drawn(browser, name, scid, tape, out)
}

// The place after the record, 2^33 at the end, or 2^32 plus the number.
#[unsafe(no_mangle)]
pub extern "C" fn compare_next(blob: &[u8], place: usize) -> u64
    ensures { result ≡ coded_next (record_at blob.now place) }
{
    compare_calls::compare_next(blob, place)
}

// The length of the part that the splitter hands back, which is copied to the output's front; 2^32 where that is too short.
#[unsafe(no_mangle)]
pub extern "C" fn compare_record(blob: &[u8], place: usize, out: &mut [u8]) -> u64
    ensures { PartCoded blob.now place out.old result out.new }
{
    compare_calls::compare_record(blob, place, out)
}

// The length of the report's text, as the command `report` answers it, or 2^32 plus the number.
#[unsafe(no_mangle)]
pub extern "C" fn compare_report(hello: &[u8], out: &mut [u8]) -> u64
    ensures { ReportCoded (read hello.now) out.old result out.new }
{
    compare_calls::compare_report(hello, out)
}

// The length of the text that answers the command `set`.
#[unsafe(no_mangle)]
pub extern "C" fn compare_set(hello: &[u8], out: &mut [u8]) -> u64
    ensures { TextCoded (set_text (extension_set (read hello.now))) out.old result out.new }
{
    compare_calls::compare_set(hello, out)
}

// Where the reader stops: 2^32 times the number, plus the place; 0 where the hello is accepted.
#[unsafe(no_mangle)]
pub extern "C" fn compare_stopped(hello: &[u8]) -> u64
    ensures { result ≡ coded_stop (stopped_at hello.now) }
{
    compare_calls::compare_stopped(hello)
}

// One place of each list of the report, added up modulo 2^64: the whole report is built, and no list can be left out. To be timed.
#[unsafe(no_mangle)]
pub extern "C" fn compare_picked(hello: &[u8], place: usize) -> u64
    ensures { result ≡ picked_of (parsed_of (read hello.now)) place }
{
    compare_calls::compare_picked(hello, place)
}
