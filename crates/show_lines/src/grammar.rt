// What may stand in a ClientHello, one row for each kind of line (RFC 8446, section 4.1.2, and document 01, "Reading").

ghost use Rattle.std.specs.Prelude.{◌≡◌};
ghost use Rattle.fingerprint.specs.Code.{meant, slot};
ghost use Rattle.show_lines.specs.Grammar as specs;
ghost use Rattle.show_lines.specs.Rows.{kind_number, Stands};

use Form::{Opens, Plain, Vector};
use Kind::{
    After, Algorithm, CipherSuites, ClientShares, End, Extension, ExtensionBlock, Group, KeyShare,
    LegacyCompressionMethods, LegacySessionId, LegacyVersion, Length, MsgType, NamedGroupList,
    Parameter, ProtocolName, ProtocolNameList, Random, Rest, ServerName, ServerNameList, Suite,
    SupportedSignatureAlgorithms, Unread, Version, VersionList,
};
use Part::{Block, Body, Hello, List, Suites};
use fingerprint::walk;
use registries::Registry;

// The kinds of lines. `Unread` is a body that is not read, `Rest` what is left of a body, `After` what is left of the hello.
#[derive(Clone, Copy, PartialEq, Eq, Debug)]
pub enum Kind {
    MsgType,
    Length,
    LegacyVersion,
    Random,
    LegacySessionId,
    CipherSuites,
    Suite,
    LegacyCompressionMethods,
    ExtensionBlock,
    Extension,
    ServerNameList,
    ServerName,
    NamedGroupList,
    Group,
    SupportedSignatureAlgorithms,
    Algorithm,
    ProtocolNameList,
    ProtocolName,
    VersionList,
    Version,
    ClientShares,
    KeyShare,
    Parameter,
    Unread,
    Rest,
    After,
    End,
}

// Where those bytes stand whose count is a line's length: there are none, on the line itself, or on lines of their own, of which the first
// is of some kind.
#[derive(Clone, Copy, PartialEq, Eq, Debug)]
pub enum Form {
    Plain,
    Vector,
    Opens(Kind),
}

// The part in which a line stands.
#[derive(Clone, Copy, PartialEq, Eq, Debug)]
pub enum Part {
    Hello,
    Suites,
    Block,
    Body,
    List,
}

// What may stand on a line: the bytes of its front, none where it takes all that is left; how many of these, the last, are a length; its
// form and part; the kind of line that follows; and the registry of its number.
#[derive(Clone, Copy, PartialEq, Eq, Debug)]
pub struct Row {
    pub front: Option<usize>,
    pub width: usize,
    pub form: Form,
    pub part: Part,
    pub then: Kind,
    pub registry: Option<Registry>,
}

fn entry(
    front: Option<usize>,
    width: usize,
    form: Form,
    part: Part,
    then: Kind,
    registry: Option<Registry>,
) -> Row
    ensures { result ≡ record { front = front; width = width; form = form; part = part; then = then; registry = registry } }
{
    Row {
        front,
        width,
        form,
        part,
        then,
        registry,
    }
}

// The row of a kind of line.
#[tactic(auto, unfolding(crate::specs::Grammar::column, crate::specs::Grammar::grammar))]
pub fn row_of(kind: Kind) -> Row
    ensures { Stands (kind_number kind) result }
{
    match kind {
        MsgType => entry(Some(1), 0, Plain, Hello, Length, None),
        Length => entry(Some(3), 3, Plain, Hello, LegacyVersion, None),
        LegacyVersion => entry(Some(2), 0, Plain, Hello, Random, Some(Registry::Versions)),
        Random => entry(Some(32), 0, Plain, Hello, LegacySessionId, None),
        LegacySessionId => entry(Some(1), 1, Vector, Hello, CipherSuites, None),
        CipherSuites => entry(
            Some(2),
            2,
            Opens(Suite),
            Hello,
            LegacyCompressionMethods,
            None,
        ),
        Suite => entry(Some(2), 0, Plain, Suites, Suite, Some(Registry::Suites)),
        LegacyCompressionMethods => entry(Some(1), 1, Vector, Hello, ExtensionBlock, None),
        ExtensionBlock => entry(Some(2), 2, Opens(Extension), Hello, After, None),
        Extension => entry(
            Some(4),
            2,
            Opens(Unread),
            Block,
            Extension,
            Some(Registry::Types),
        ), // inside is what its type says
        ServerNameList => entry(Some(2), 2, Opens(ServerName), Body, Rest, None),
        ServerName => entry(Some(3), 2, Vector, List, ServerName, None),
        NamedGroupList => entry(Some(2), 2, Opens(Group), Body, Rest, None),
        Group => entry(Some(2), 0, Plain, List, Group, Some(Registry::Groups)),
        SupportedSignatureAlgorithms => entry(Some(2), 2, Opens(Algorithm), Body, Rest, None),
        Algorithm => entry(
            Some(2),
            0,
            Plain,
            List,
            Algorithm,
            Some(Registry::Algorithms),
        ),
        ProtocolNameList => entry(Some(2), 2, Opens(ProtocolName), Body, Rest, None),
        ProtocolName => entry(Some(1), 1, Vector, List, ProtocolName, None),
        VersionList => entry(Some(1), 1, Opens(Version), Body, Rest, None),
        Version => entry(Some(2), 0, Plain, List, Version, Some(Registry::Versions)),
        ClientShares => entry(Some(2), 2, Opens(KeyShare), Body, Rest, None),
        KeyShare => entry(Some(4), 2, Vector, List, KeyShare, Some(Registry::Groups)),
        Parameter => entry(None, 0, Vector, Body, Parameter, Some(Registry::Parameters)), // its front is two varints
        Unread => entry(None, 0, Plain, Body, Rest, None),
        Rest => entry(None, 0, Plain, Body, Rest, None),
        After => entry(None, 0, Plain, Hello, After, None),
        End => entry(None, 0, Plain, Hello, End, None),
    }
}

// The kind of line inside an extension, by the kind of its body.
#[tactic(auto, unfolding(crate::specs::Grammar::body_line))]
pub fn body_line(body: walk::Kind) -> Kind
    ensures { kind_number result ≡ specs.body_line (slot (meant body)) }
{
    match body {
        walk::Kind::Name => ServerNameList,
        walk::Kind::Groups => NamedGroupList,
        walk::Kind::Algorithms => SupportedSignatureAlgorithms,
        walk::Kind::Protocols => ProtocolNameList,
        walk::Kind::Versions => VersionList,
        walk::Kind::Shares => ClientShares,
        walk::Kind::Parameters => Parameter,
        walk::Kind::Other => Unread,
    }
}
