// One line after the other: where a line ends, and what stands after it.
ghost use Rattle.std.specs.Prelude.{◌≡◌, ◌+◌, ◌≤◌, ◌<◌, min, true, length, None, Some};
ghost use Rattle.std.specs.Option.{is_some};
ghost use Rattle.wire.specs.Numbers as numbers;
ghost use Rattle.show_lines.specs.Grammar.{column};
ghost use Rattle.show_lines.specs.Lines as specs;
ghost use Rattle.show_lines.specs.Lines.{part_end, line, line_from, front_bytes, parameter_front, line_of, line_at, Ready, Reaches};
ghost use Rattle.show_lines.specs.Lines.{after_list, after_body, in_hello};
ghost use Rattle.show_lines.specs.Rows.{kind_number, cursor_of};

use crate::grammar::{Form, Kind, Part, body_line, row_of};
use fingerprint::walk;
use wire::be16;

// A place in the hello, what stands there, and the ends of the parts around it: the list, the body and the block that were last opened, 0
// before one is, when no line stands in it.
#[derive(Clone, Copy, PartialEq, Eq, Debug)]
pub struct Cursor {
    pub at: usize,
    pub kind: Kind,
    pub list: usize,
    pub body: usize,
    pub block: usize,
}

// A line: where it ends, the bytes of its front, none where these are cut, and the length that it says, 0 where it says none: its words do
// not name it then.
#[derive(Clone, Copy, PartialEq, Eq, Debug)]
pub struct Line {
    pub end: usize,
    pub front: Option<usize>,
    pub said: u64,
}

// The end of the part in which a line stands.
pub fn part_end(hello: &[u8], c: Cursor) -> usize
    ensures { result ≡ part_end (length hello.now) (cursor_of c) }
{
    match row_of(c.kind).part {
        Part::Hello => hello.len(),
        Part::Suites => c.list,
        Part::Block => c.block,
        Part::Body => c.body,
        Part::List => c.list,
    }
}

// The number in up to three bytes.
fn number(bytes: &[u8]) -> u64
    requires { length bytes.now ≤ 3 }
    ensures { result ≡ numbers.number 256 bytes.now }
{
    let mut word = [0; 4];
    word[4 - bytes.len()..].copy_from_slice(bytes);
    u64::from(u32::from_be_bytes(word))
}

// A line that takes all that is left: it has no front, or one that is cut.
fn rest_line(end: usize) -> Line
    ensures { result ≡ line end None 0 }
{
    Line {
        end,
        front: None,
        said: 0,
    }
}

// A transport parameter: its front are the id and the length. That a part ends below 65536 is a fact about a place and the bytes there, here
// and in the two functions below; a struct of both would be made and taken apart at each call.
fn parameter(rest: &[u8], at: usize) -> Line
    requires { at + length rest.now ≤ 65536 }
    ensures { result ≡ line_from 22 at rest.now (parameter_front rest.now) }
{
    let Ok(id) = varint::read(rest) else {
        return rest_line(at + rest.len());
    };
    let w = id.width;
    let Ok(length) = varint::read(&rest[w..]) else {
        return rest_line(at + rest.len());
    };
    vector(rest.len(), at, w + length.width, length.value)
}

// A line whose front says how many bytes follow on it, of so many that are left from its start on.
fn vector(left: usize, at: usize, front: usize, said: u64) -> Line
    requires { (front ≤ left) × (at + left ≤ 65536) }
    ensures { result ≡ line (at + min (front + said) left) (Some front) said }
{
    let inside = said.min((left - front) as u64) as usize;
    Line {
        end: at + front + inside,
        front: Some(front),
        said,
    }
}

// The line at a place: the bytes from there to the end of its part.
fn line_of(kind: Kind, rest: &[u8], at: usize) -> Line
    requires { at + length rest.now ≤ 65536 }
    ensures { result ≡ line_of (kind_number kind) rest.now at }
{
    if kind == Kind::Parameter {
        return parameter(rest, at);
    }
    let row = row_of(kind);
    let Some(front) = row.front else {
        return rest_line(at + rest.len());
    };
    if rest.len() < front {
        return rest_line(at + rest.len());
    }
    let said = number(&rest[front - row.width..front]);
    match row.form {
        Form::Vector => vector(rest.len(), at, front, said),
        _ => Line {
            end: at + front,
            front: Some(front),
            said,
        },
    }
}

// The line at the cursor. What stands there is asked where a line begins, by `Lines::next`, whose test of the place is what this, `due` and
// `next` require. Hello and cursor go side by side, as the definitions have them (specs/Lines.antt): a cursor is made anew at each step, and that
// it is `Ready` would as a ghost field need the hello's length in each.
pub fn line_at(hello: &[u8], c: Cursor) -> Line
    requires { (length hello.now ≤ 65536) × Ready (length hello.now) (cursor_of c) × (c.at < length hello.now) }
    ensures { (result ≡ line_at hello.now (cursor_of c)) × Reaches (length hello.now) (cursor_of c) result }
{
    let at = c.at;
    let end = part_end(hello, c);
    line_of(c.kind, &hello[at..end], at)
}

// What stands at a place after a body's list: the rest of the body, the next extension, the rest of the hello, or its end.
fn after_list(n: usize, at: usize, body: usize, block: usize) -> Kind
    ensures { kind_number result ≡ after_list n at body block }
{
    if at < body {
        return Kind::Rest;
    }
    after_body(n, at, block)
}

fn after_body(n: usize, at: usize, block: usize) -> Kind
    ensures { kind_number result ≡ after_body n at block }
{
    if at < block {
        return Kind::Extension;
    }
    in_hello(n, at, Kind::After)
}

fn in_hello(n: usize, at: usize, kind: Kind) -> Kind
    ensures { kind_number result ≡ in_hello n at (kind_number kind) }
{
    if at < n { kind } else { Kind::End }
}

// What stands at the cursor's place: what is due, where its part goes on; else what stands after that part.
fn settled(n: usize, c: Cursor) -> Kind
    ensures { kind_number result ≡ specs.settled n (cursor_of c) }
{
    match row_of(c.kind).part {
        Part::Hello => in_hello(n, c.at, c.kind),
        Part::Suites => if c.at < c.list {
            c.kind
        } else {
            in_hello(n, c.at, Kind::LegacyCompressionMethods)
        },
        Part::Block => after_body(n, c.at, c.block),
        Part::Body => if c.at < c.body {
            c.kind
        } else {
            after_body(n, c.at, c.block)
        },
        Part::List => if c.at < c.list {
            c.kind
        } else {
            after_list(n, c.at, c.body, c.block)
        },
    }
}

fn settle(n: usize, c: Cursor) -> Cursor
    ensures { cursor_of result ≡ specs.settle n (cursor_of c) }
{
    Cursor {
        kind: settled(n, c),
        ..c
    }
}

// The kind of line inside the one at a place, which its row calls `first`. An extension's type says it; suites that say more than is
// left are not listed.
fn inside(hello: &[u8], c: Cursor, line: Line, first: Kind) -> Kind
    requires { (line.end ≤ length hello.now) × (c.at + front_bytes line.front ≤ line.end) × (is_some line.front ≡ true) × (line ≡ line_at hello.now (cursor_of c)) × (kind_number first ≡ column (kind_number c.kind) 4) }
    ensures { kind_number result ≡ specs.inside hello.now (cursor_of c) line }
{
    let at = c.at;
    match c.kind {
        Kind::Extension => body_line(walk::Kind::from(be16(&hello[at..]))),
        Kind::CipherSuites => if ((hello.len() - line.end) as u64) < line.said {
            Kind::After
        } else {
            first
        },
        _ => first,
    }
}

// The cursor at the first line inside, where what is inside ends at `end`.
fn opened(c: Cursor, at: usize, kind: Kind, end: usize) -> Cursor
    ensures { cursor_of result ≡ specs.opened (cursor_of c) at (kind_number kind) end }
{
    match row_of(kind).part {
        Part::Hello => Cursor { at, kind, ..c },
        Part::Suites => Cursor {
            at,
            kind,
            list: end,
            ..c
        },
        Part::Block => Cursor {
            at,
            kind,
            block: end,
            ..c
        },
        Part::Body => Cursor {
            at,
            kind,
            body: end,
            ..c
        },
        Part::List => Cursor {
            at,
            kind,
            list: end,
            ..c
        },
    }
}

// What is due after a line that opens nothing. A first byte that is not 01 begins no ClientHello.
fn due(hello: &[u8], c: Cursor) -> Kind
    requires { c.at < length hello.now }
    ensures { kind_number result ≡ specs.due hello.now (cursor_of c) }
{
    let at = c.at;
    match c.kind {
        Kind::MsgType if hello[at] != 1 => Kind::After,
        _ => row_of(c.kind).then,
    }
}

// The place up to which a line's inside reaches: what it says or what is left, as in `vector`, where the front counts too.
fn inner_end(line: Line, limit: usize) -> usize
    requires { line.end ≤ limit }
    ensures { result ≡ min (line.end + line.said) limit }
{
    line.end + line.said.min((limit - line.end) as u64) as usize
}

// The cursor after a line.
pub fn next(hello: &[u8], c: Cursor, line: Line) -> Cursor
    requires { (length hello.now ≤ 65536) × Ready (length hello.now) (cursor_of c) × (c.at < length hello.now) × (line ≡ line_at hello.now (cursor_of c)) × Reaches (length hello.now) (cursor_of c) line }
    ensures { (cursor_of result ≡ specs.next hello.now (cursor_of c) line) × Ready (length hello.now) (cursor_of result) × (c.at < result.at) }
{
    let n = hello.len();
    match row_of(c.kind).form {
        Form::Opens(first) if line.front.is_some() => {
            let end = inner_end(line, part_end(hello, c));
            settle(n, opened(c, line.end, inside(hello, c, line, first), end))
        }
        _ => {
            let kind = due(hello, c);
            settle(
                n,
                Cursor {
                    at: line.end,
                    kind,
                    ..c
                },
            )
        }
    }
}

// The cursor at the first line.
pub fn start(hello: &[u8]) -> Cursor
    ensures { (cursor_of result ≡ specs.start hello.now) × Ready (length hello.now) (cursor_of result) × (result.at ≡ 0) }
{
    settle(
        hello.len(),
        Cursor {
            at: 0,
            kind: Kind::MsgType,
            list: 0,
            body: 0,
            block: 0,
        },
    )
}

// The lines of a hello: the cursor at each, and the line.
#[derive(Drop)]
pub struct Lines<'a> {
    hello: &'a [u8],
    cursor: Cursor,
}

impl<'a> Lines<'a> {
    ghost use Rattle.show_lines.specs.Steps.{Begins};

    pub fn new(hello: &'a [u8]) -> Lines<'a>
        requires { length hello.now ≤ 65536 }
        ensures { Begins hello.now result }
    {
        Lines {
            hello,
            cursor: start(hello),
        }
    }
}

impl<'a> Iterator for Lines<'a> {
    ghost use Rattle.std.specs.Prelude.{◌-◌, length};
    ghost use Rattle.std.specs.Iterator.{at_most};
    ghost use Rattle.show_lines.specs.Steps.{GoesOn, GivesLine};

    type Item = (Cursor, Line);

    ghost can_next = { GoesOn };

    ghost next_gives = { GivesLine };

    ghost remaining = { λ s. at_most (length s.hello.now - s.cursor.at) };

    fn next(&mut self) -> Option<(Cursor, Line)> {
        let c = self.cursor;
        if self.hello.len() <= c.at {
            return None;
        }
        let line = line_at(self.hello, c);
        self.cursor = next(self.hello, c, line);
        Some((c, line))
    }
}
