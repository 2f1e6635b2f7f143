// The calls of the reader: report, refusal alone, name, types in rising order.
ghost use Rattle.std.specs.Prelude.{◌≡◌, [], replicate};
ghost use Rattle.fingerprint_lists.specs.Arrays.{types_of};
ghost use Rattle.fingerprint.specs.Reader.{read};
ghost use Rattle.wire.specs.Refusals.{answer_of, told_of};
ghost use Rattle.fingerprint.specs.Report.{shown, empty_report, parsed_of, told_report, number_of, refusal_number};
ghost use Rattle.fingerprint.specs.Calls.{name_or, extension_set};
ghost use Rattle.fingerprint.specs.Code.{ReadAs};

use crate::Fingerprint;
use crate::head::{Head, read_head};
use crate::report::{ext_types, name_in, part, report};
use crate::walk::{Kind, Survey, survey_block};
use fingerprint_lists::Types;
use profiles::ExtType;
use wire::Refusal;

// The head, and what the walk over the extensions found: their types and the parameter ids are left in arrays of zeros.
fn survey(
    hello: &[u8],
    types: &mut [u16; 64],
    ids: &mut [u64; 64],
) -> Result<(Head, Survey), Refusal>
    requires { (types.old ≡ replicate 64 0) × (ids.old ≡ replicate 64 0) }
    ensures { ReadAs hello.now result types.new ids.new }
{
    let head = read_head(hello)?;
    let found = survey_block(hello, head.block, types, ids)?;
    Ok((head, found))
}

// The report of any bytes: that of the hello, or its refusal.
pub fn parse_clienthello(hello: &[u8]) -> Result<Fingerprint, Refusal>
    ensures is { answer_of result ≡ parsed_of (read hello.now) }
    ensures tells { told_of (shown empty_report) result ≡ told_report (read hello.now) }
{
    let mut types = [0; 64];
    let mut ids = [0; 64];
    let (head, found) = survey(hello, &mut types, &mut ids)?;
    Ok(report(hello, head, found, types, ids))
}

// The refusal alone, none where the hello is accepted: no report is built. Not by `survey`, for which the arrays would be cleared before the
// head is read.
pub fn refusal(hello: &[u8]) -> Option<Refusal>
    ensures { refusal_number result ≡ number_of (read hello.now) }
{
    match read_head(hello) {
        Ok(head) => survey_block(hello, head.block, &mut [0; 64], &mut [0; 64]).err(),
        Err(refusal) => Some(refusal),
    }
}

// The name's part of the hello, or the default where the hello is refused or nameless.
pub fn name_or<'a>(hello: &'a [u8], default: &'a [u8]) -> &'a [u8]
    ensures { result.now ≡ name_or default.now (read hello.now) }
{
    let Ok((_, found)) = survey(hello, &mut [0; 64], &mut [0; 64]) else {
        return default;
    };
    match name_in(found.body(Kind::Name)) {
        Some(name) => part(hello, name),
        None => default,
    }
}

// The types in rising order; none for a refused hello, as document 01 has it: the refusal is told by the other calls.
pub fn extension_set(hello: &[u8]) -> Types
    ensures { result ≡ types_of (extension_set (read hello.now)) }
{
    let Ok(head) = read_head(hello) else {
        return no_types();
    };
    let mut types = [0; 64];
    let Ok(found) = survey_block(hello, head.block, &mut types, &mut [0; 64]) else {
        return no_types();
    };
    let count = found.count;
    types[..count].sort_unstable();
    Types {
        items: ext_types(&types),
        count,
    }
}

fn no_types() -> Types
    ensures { result ≡ types_of [] }
{
    Types {
        items: [ExtType(0); 64],
        count: 0,
    }
}
