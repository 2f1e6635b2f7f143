// Browser profiles (profiles.rs). The lists are constant tables, indexed by profile; a row that is shorter than its table is filled up,
// and a count says where it ends. Document 01, "Profiles and maker".
#![tactic(auto)]

ghost use Rattle.std.specs.Prelude.{◌≡◌, ◌<◌, take};
ghost use Rattle.profiles.specs.Code.{browser_number, group_number, Chooses};

pub mod built_in;
pub mod ext;
pub mod named_groups;
pub mod tables;

use wire::{Refusal, Word};

// A built-in profile. Callers name it by a number, which is also its row in the tables: 0 is Chrome, 1 Firefox, 2 curl.
#[derive(Clone, Copy, PartialEq, Eq, Debug)]
pub enum Browser {
    Chrome,
    Firefox,
    Curl,
}

impl Browser {
    // A method and no `From<Browser>`: `usize::from(browser)` would not say that it is the number of the profile.
    pub fn number(self) -> usize
        ensures { (result ≡ browser_number self) × (result < 3) }
    {
        match self {
            Browser::Chrome => 0,
            Browser::Firefox => 1,
            Browser::Curl => 2,
        }
    }
}

impl TryFrom<u64> for Browser {
    type Error = Refusal;

    ghost try_from_gives = { Chooses };

    fn try_from(number: u64) -> Result<Self, Refusal> {
        match number {
            0 => Ok(Browser::Chrome),
            1 => Ok(Browser::Firefox),
            2 => Ok(Browser::Curl),
            _ => Err(Refusal::UnknownProfile),
        }
    }
}

// 0x0017 is extended_master_secret among extension types and secp256r1 among groups: two types, so that in a profile or a report the two
// never pass for one another. What writes, prints or counts them takes the number out; the reader's walk has a type as the number read.
#[derive(Clone, Copy, PartialEq, Eq, Debug)]
pub struct ExtType(pub u16);

#[derive(Clone, Copy, PartialEq, Eq, Debug)]
pub struct Group(pub u16);

impl Word for Group {
    ghost word = { group_number };

    fn word(self) -> u16 {
        self.0
    }
}

// A QUIC transport parameter. A customer's profile has numbers, connection ids and GREASE; bytes and 0x11 only the built-in ones have.
#[derive(Clone, Copy, PartialEq, Eq, Debug)]
pub enum TpEntry {
    // fixed id with a number, written as a varint
    Varint(u64, u64),
    // fixed id with bytes
    Bytes(u64, &'static [u8]),
    // `version_information` (0x11)
    VersionInfo(u64),
    // the connection id as the value
    ScidSource(u64),
    // an id that is 27 mod 31, and 6 bytes, all drawn
    Grease,
}

// What a hello is made of. Each list is an array with its count, since no heap is used, with room for what a customer may list
// (document 02, paper 10); by methods it is a slice. The one protocol is its name. The last three are sums over the profile: the tape that
// it needs, the length of its longest hello with neither name nor connection id, and how often the connection id stands in it.
// Its fields are open, so that a profile is sound (`Sound`) is asked where one is used, and is no invariant of the type.
#[derive(Clone, Copy)]
pub struct Profile {
    pub cipher_suites: [u16; 16],
    pub suite_count: usize,
    pub extensions_order: [ExtType; 16],
    pub extension_count: usize,
    pub supported_groups: [Group; 8],
    pub group_count: usize,
    pub signature_algorithms: [u16; 16],
    pub algorithm_count: usize,
    pub supported_versions: [u16; 4],
    pub version_count: usize,
    pub key_share_groups: [Group; 4],
    pub share_count: usize,
    pub alpn: [u8; 2],
    pub quic_tp: [TpEntry; 16],
    pub parameter_count: usize,
    // zlib, zstd and brotli in compress_certificate, else brotli alone
    pub firefox_compression: bool,
    // no session id, else one of 32 bytes
    pub use_empty_session_id: bool,
    pub randomize_extensions_order: bool,
    pub tape_needed: usize,
    pub longest: usize,
    pub scid_sources: usize,
}

// The first so many elements of a list, all of them where it has no more.
pub fn first<T>(list: &[T], count: usize) -> &[T]
    ensures { result.now ≡ take count list.now }
{
    &list[..count.min(list.len())]
}

// The lists without what fills their arrays up.
impl Profile {
    pub fn suites(&self) -> &[u16]
        ensures { result.now ≡ take self.now.suite_count self.now.cipher_suites }
    {
        first(&self.cipher_suites, self.suite_count)
    }

    pub fn extensions(&self) -> &[ExtType]
        ensures { result.now ≡ take self.now.extension_count self.now.extensions_order }
    {
        first(&self.extensions_order, self.extension_count)
    }

    pub fn groups(&self) -> &[Group]
        ensures { result.now ≡ take self.now.group_count self.now.supported_groups }
    {
        first(&self.supported_groups, self.group_count)
    }

    pub fn algorithms(&self) -> &[u16]
        ensures { result.now ≡ take self.now.algorithm_count self.now.signature_algorithms }
    {
        first(&self.signature_algorithms, self.algorithm_count)
    }

    pub fn versions(&self) -> &[u16]
        ensures { result.now ≡ take self.now.version_count self.now.supported_versions }
    {
        first(&self.supported_versions, self.version_count)
    }

    pub fn shares(&self) -> &[Group]
        ensures { result.now ≡ take self.now.share_count self.now.key_share_groups }
    {
        first(&self.key_share_groups, self.share_count)
    }

    pub fn parameters(&self) -> &[TpEntry]
        ensures { result.now ≡ take self.now.parameter_count self.now.quic_tp }
    {
        first(&self.quic_tp, self.parameter_count)
    }
}
