// Cursors that have the number of what stands there, which may be one that no row of the grammar has: the line there is then all that is left
// of the hello, as after the extensions.
ghost use Rattle.std.specs.Prelude.{◌≡◌, ◌≤◌, ◌<◌, length};
ghost use Rattle.show_lines.specs.Lines as specs;
ghost use Rattle.show_lines.specs.Lines.{part_end, line_at, Ready, Reaches};
ghost use Rattle.show_lines.specs.Rows.{kind_number, cursor_of};
ghost use Rattle.show_lines.specs.Numbered.{known_number, known, cursor_by};

use crate::cursor;
use crate::cursor::Line;
use crate::grammar::Kind;

// A place in the hello, the number of what stands there, and the ends of the parts around it, as in `cursor::Cursor`.
#[derive(Clone, Copy, PartialEq, Eq, Debug)]
pub struct Cursor {
    pub at: usize,
    pub what: usize,
    pub list: usize,
    pub body: usize,
    pub block: usize,
}

// The kind that has a number.
fn kind_of(what: usize) -> Kind
    ensures { kind_number result ≡ known_number what }
{
    match what {
        0 => Kind::MsgType,
        1 => Kind::Length,
        2 => Kind::LegacyVersion,
        3 => Kind::Random,
        4 => Kind::LegacySessionId,
        5 => Kind::CipherSuites,
        6 => Kind::Suite,
        7 => Kind::LegacyCompressionMethods,
        8 => Kind::ExtensionBlock,
        9 => Kind::Extension,
        10 => Kind::ServerNameList,
        11 => Kind::ServerName,
        12 => Kind::NamedGroupList,
        13 => Kind::Group,
        14 => Kind::SupportedSignatureAlgorithms,
        15 => Kind::Algorithm,
        16 => Kind::ProtocolNameList,
        17 => Kind::ProtocolName,
        18 => Kind::VersionList,
        19 => Kind::Version,
        20 => Kind::ClientShares,
        21 => Kind::KeyShare,
        22 => Kind::Parameter,
        23 => Kind::Unread,
        24 => Kind::Rest,
        26 => Kind::End,
        _ => Kind::After,
    }
}

fn by_kind(c: Cursor) -> cursor::Cursor
    ensures { cursor_of result ≡ known (cursor_by c) }
{
    cursor::Cursor {
        at: c.at,
        kind: kind_of(c.what),
        list: c.list,
        body: c.body,
        block: c.block,
    }
}

// The end of the part in which the line at the cursor stands.
pub fn part_end(hello: &[u8], c: Cursor) -> usize
    ensures { result ≡ part_end (length hello.now) (cursor_by c) }
{
    cursor::part_end(hello, by_kind(c))
}

// The line at the cursor.
pub fn line_at(hello: &[u8], c: Cursor) -> Line
    requires { (length hello.now ≤ 65536) × Ready (length hello.now) (cursor_by c) × (c.at < length hello.now) }
    ensures { (result ≡ line_at hello.now (cursor_by c)) × Reaches (length hello.now) (cursor_by c) result }
{
    cursor::line_at(hello, by_kind(c))
}

// The cursor after a line.
pub fn next(hello: &[u8], c: Cursor, line: Line) -> cursor::Cursor
    requires { (length hello.now ≤ 65536) × Ready (length hello.now) (cursor_by c) × (c.at < length hello.now) × (line ≡ line_at hello.now (cursor_by c)) × Reaches (length hello.now) (cursor_by c) line }
    ensures { (cursor_of result ≡ specs.next hello.now (cursor_by c) line) × Ready (length hello.now) (cursor_of result) × (c.at < result.at) }
{
    cursor::next(hello, by_kind(c), line)
}
