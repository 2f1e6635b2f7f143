// Names: as text where they can be, else as plain hex.
ghost use Rattle.script_writing.specs.Shown.{Written};
ghost use Rattle.script_writing.specs.Names.{quoted, name_text};

use crate::bytes::put_hex;
use crate::texts::put_text;
use script::reading::all_plain;

// Writes a name between quotes.
fn put_quoted(out: &mut [u8], name: &[u8]) -> usize
    ensures { Written (quoted name.now) result out.old out.new }
{
    let n = name.len();
    if out.len() < 2 {
        return 0;
    }
    if out.len() - 2 < n {
        return 0;
    }
    out[0] = b'"';
    wire::put_bytes(&mut out[1..], name);
    out[n + 1] = b'"';
    n + 2
}

// Writes a name.
pub fn put_name(out: &mut [u8], name: &[u8]) -> usize
    ensures { Written (name_text name.now) result out.old out.new }
{
    if name.len() == 0 {
        return put_text(out, b"-");
    }
    if all_plain(name) {
        put_quoted(out, name)
    } else {
        put_hex(out, name)
    }
}
