// What is told of a hello's lines: their words, and of the line at which the reader stopped, why it did.
ghost use Rattle.std.specs.Prelude.{◌≤◌, length};
ghost use Rattle.show_lines.specs.Lines.{front_bytes};

use fingerprint::walk;
use script::reading::all_plain;
use show_lines::cursor::Line;
use show_lines::grammar::{Kind, Part, row_of};
use show_words::Told;
use wire::{Refusal, Stop, be16};

// What a line says that is cut, one of another message, one with a name that is not shown, and a parameter that is no number.
const CUT_LINE: &str = "<@";

const OTHER_MESSAGE: &str = "<@ unknown";

const NO_NAME: &str = "<@, # $";

const NO_NUMBER: &str = "<@ =, # $";

// Why the reader stopped.
const TOO_LONG: &str = "the hello has + bytes, and the most are 16384";

const NO_CLIENT_HELLO: &str = "a ClientHello begins with 01";

const ID_TWICE: &str = "this id stands twice";

const PAST_64: &str = "this @ is one more than 64";

const PAST_16: &str = "this @ is one more than 16";

const CUT: &str = "this @ is cut, with + ~ left in the &";

const SAYS: &str = "this @ says # $, and + ^ left in the &";

const TWICE_OR_EMPTY: &str = "this type stands twice, or its body may not be empty";

// The ids of parameters whose value is a number (RFC 9000, section 18.2; RFC 9221).
const NUMBERS: [u64; 12] = [1, 3, 4, 5, 6, 7, 8, 9, 10, 11, 14, 32];

// What a kind of line is called.
fn noun(kind: Kind) -> &'static str {
    match kind {
        Kind::MsgType => "msg_type",
        Kind::Length => "length",
        Kind::LegacyVersion => "legacy_version",
        Kind::Random => "random",
        Kind::LegacySessionId => "legacy_session_id",
        Kind::CipherSuites => "cipher_suites",
        Kind::Suite => "suite",
        Kind::LegacyCompressionMethods => "legacy_compression_methods",
        Kind::ExtensionBlock => "extension_block",
        Kind::Extension => "extension",
        Kind::ServerNameList => "server_name_list",
        Kind::ServerName => "server_name",
        Kind::NamedGroupList => "named_group_list",
        Kind::Group => "group",
        Kind::SupportedSignatureAlgorithms => "supported_signature_algorithms",
        Kind::Algorithm => "algorithm",
        Kind::ProtocolNameList => "protocol_name_list",
        Kind::ProtocolName => "protocol_name",
        Kind::VersionList => "version_list",
        Kind::Version => "version",
        Kind::ClientShares => "client_shares",
        Kind::KeyShare => "key_share",
        Kind::Parameter => "parameter",
        Kind::Unread => "body",
        Kind::Rest | Kind::After => "rest",
        Kind::End => "end",
    }
}

// What its line says; most say how long they are.
fn line_words(kind: Kind) -> &'static str {
    match kind {
        Kind::MsgType => "<@ client_hello",
        Kind::LegacyVersion | Kind::Suite | Kind::Group | Kind::Algorithm | Kind::Version => "<@ =",
        Kind::Random | Kind::Unread | Kind::Rest | Kind::After | Kind::End => "<@",
        Kind::Extension | Kind::KeyShare => "<@ =, # $",
        Kind::ServerName | Kind::ProtocolName => "<@, # $ \"",
        Kind::Parameter => "<@ =, # $: %",
        _ => "<@, # $",
    }
}

// The rule of document 01 that it breaks where it is as long as it says. The other kinds have no such rule, and a blank says so.
fn rule(kind: Kind) -> &'static str {
    match kind {
        Kind::LegacySessionId => "a session id has at most 32 bytes",
        Kind::CipherSuites => "suites take an even number of bytes, 2 or more",
        Kind::LegacyCompressionMethods => "compression takes 1 byte or more",
        Kind::Extension => "this type stands twice",
        Kind::ServerNameList => "a list of one name",
        Kind::ServerName => "one entry of type 0, with a name of 1 byte or more that ends the list",
        Kind::NamedGroupList | Kind::SupportedSignatureAlgorithms | Kind::VersionList =>
            "a list takes an even number of bytes, 2 or more",
        Kind::ProtocolNameList => "a list of one name or more",
        Kind::ProtocolName => "a name has 1 byte or more",
        Kind::KeyShare => "a key has 1 byte or more",
        Kind::End => "the hello ends before this field",
        _ => " ",
    }
}

fn part_name(part: Part) -> &'static str {
    match part {
        Part::Hello => "hello",
        Part::Suites | Part::List => "list",
        Part::Block => "block",
        Part::Body => "body",
    }
}

// How deep a line is nested.
fn depth(part: Part) -> usize {
    match part {
        Part::Hello => 0,
        Part::Suites | Part::Block => 1,
        Part::Body => 2,
        Part::List => 3,
    }
}

fn varint_at(bytes: &[u8]) -> Option<u64> {
    varint::read(bytes).ok().map(|x| x.value)
}

// Whether the value of a parameter is a number.
fn is_number(id: Option<u64>, value: &[u8]) -> bool {
    id.is_some_and(|x| NUMBERS.contains(&x))
        && varint::read(value).is_ok_and(|x| x.width == value.len())
}

// Whether a name is shown: it is plain text and not long.
fn is_shown(name: &[u8]) -> bool {
    !name.is_empty() && name.len() <= 255 && all_plain(name)
}

fn is_client_hello(bytes: &[u8]) -> bool {
    !bytes.is_empty() && bytes[0] == 1
}

// Whether a line's length must be just what is left: the hello's, the block's, and those of lists in a body.
fn is_exact(kind: Kind) -> bool {
    kind == Kind::Length
        || kind == Kind::ExtensionBlock
        || row_of(kind).part == Part::Body && kind != Kind::Unread
}

// A line of a hello: its kind, its bytes, what was found of it, and how many bytes of its part are left after its front.
#[derive(Clone, Copy, Debug)]
pub struct Shown<'a> {
    pub kind: Kind,
    pub bytes: &'a [u8],
    pub line: Line,
    pub left: u64,
}

impl<'a> Shown<'a> {
    // The number that has a name in a registry: a parameter's id, or the first two bytes.
    fn registered(self) -> Option<u64> {
        if self.kind == Kind::Parameter {
            return varint_at(self.bytes);
        }
        if self.bytes.len() < 2 {
            return None;
        }
        Some(u64::from(be16(self.bytes)))
    }

    // Its words; `rest` stands after its front.
    fn words(self, id: Option<u64>, rest: &[u8]) -> &'static str {
        if self.line.front.is_none() {
            return CUT_LINE;
        }
        match self.kind {
            Kind::MsgType if !is_client_hello(self.bytes) => OTHER_MESSAGE,
            Kind::Parameter if !is_number(id, rest) => NO_NUMBER,
            Kind::ServerName | Kind::ProtocolName if !is_shown(rest) => NO_NAME,
            _ => line_words(self.kind),
        }
    }

    // A body that is not empty has a place of its own; where the reader stopped at the extension itself, its type stands twice or its
    // body is empty.
    fn may_be_empty(self) -> bool {
        self.line.said == 0
            && 2 <= self.bytes.len()
            && !matches!(
                walk::Kind::from(be16(self.bytes)),
                walk::Kind::Parameters | walk::Kind::Other
            )
    }

    // Why a field, an extension or an entry is not in its form: 18 to 21.
    fn misfit(self) -> &'static str {
        let said = self.line.said;
        if self.kind == Kind::End {
            return rule(self.kind);
        }
        if self.line.front.is_none() {
            return CUT;
        }
        if self.left < said || is_exact(self.kind) && said != self.left {
            return SAYS;
        }
        if self.kind == Kind::Extension && self.may_be_empty() {
            return TWICE_OR_EMPTY;
        }
        rule(self.kind)
    }

    // Why the reader stopped at it.
    fn reason(self, refusal: Refusal) -> &'static str {
        match refusal {
            Refusal::HelloTooLong => TOO_LONG,
            Refusal::NoClientHello => NO_CLIENT_HELLO,
            Refusal::ParameterTwice => ID_TWICE,
            Refusal::ListTooLong if self.kind == Kind::ProtocolName => PAST_16,
            Refusal::ListTooLong => PAST_64,
            _ => self.misfit(),
        }
    }

    // What is told of it, and of a refusal there.
    pub fn told(self, stop: Option<Stop>) -> Told<'static>
        requires { front_bytes self.line.front ≤ length self.bytes.now }
    {
        let rest = &self.bytes[self.line.front.unwrap_or(0)..];
        let row = row_of(self.kind);
        let id = self.registered();
        Told {
            words: self.words(id, rest),
            why: stop.map(|s| self.reason(s.refusal)),
            depth: depth(row.part),
            noun: noun(self.kind),
            part: part_name(row.part),
            registered: row.registry.zip(id),
            front: self.line.front,
            said: self.line.said,
            left: self.left,
            value: varint_at(rest),
        }
    }
}
