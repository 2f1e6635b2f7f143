// Names, each with the range of the hello that holds it.
ghost use Rattle.std.specs.Prelude.{[], ◌∷◌, length};
ghost use Rattle.script.specs.Scan.{space};
ghost use Rattle.script_writing.specs.Answers.{WrittenAll};
ghost use Rattle.script_writing.specs.Names.{name_text};
ghost use Rattle.reports.specs.Lines.{each, alpn_label, name_label};
ghost use Rattle.reports.specs.Code.{span_parts, sni_parts};
ghost use Rattle.fingerprint.specs.InRange.{Inside, SpansInside, SniInside};

use fingerprint_lists::Span;
use script_writing::names::put_name;
use script_writing::texts::{Part, put_all, put_text};

// Writes a space and a name.
fn put_spaced_name(out: &mut [u8], name: &[u8]) -> usize
    ensures { WrittenAll ((space ∷ []) ∷ name_text name.now ∷ []) result out.old out.new }
{
    let n = put_text(out, b" ");
    n + put_name(&mut out[n..], name)
}

// Writes a range of the hello and the name that it holds.
pub fn put_range(out: &mut [u8], hello: &[u8], span: Span) -> usize
    requires { Inside hello.now span }
    ensures { WrittenAll (span_parts hello.now span) result out.old out.new }
{
    let start = span.start;
    let end = start + span.length;
    let parts = [
        Part::Text(b" "),
        Part::Number(start as u64),
        Part::Text(b".."),
        Part::Number(end as u64),
    ];
    let n = put_all(out, &parts);
    n + put_spaced_name(&mut out[n..], &hello[start..end])
}

// Writes protocol names, each with its range. No `put_list`, whose items are written without the hello.
pub fn put_protocols(out: &mut [u8], hello: &[u8], spans: &[Span]) -> usize
    requires { SpansInside hello.now spans.now (length spans.now) }
    ensures { WrittenAll (alpn_label ∷ each (span_parts hello.now) spans.now) result out.old out.new }
{
    let mut at = put_text(out, b"\n  alpn");
    for &span in spans {
        at += put_range(&mut out[at..], hello, span);
    }
    at
}

// Writes the server's name with its range, or that there is none.
pub fn put_sni(out: &mut [u8], hello: &[u8], sni: Option<Span>) -> usize
    requires { SniInside hello.now sni }
    ensures { WrittenAll (name_label ∷ sni_parts hello.now sni) result out.old out.new }
{
    let n = put_text(out, b"\n  name");
    match sni {
        Some(span) => n + put_range(&mut out[n..], hello, span),
        None => n + put_text(&mut out[n..], b" none"),
    }
}
