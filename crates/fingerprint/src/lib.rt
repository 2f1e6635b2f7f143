// The reader (fingerprint.rs): a ClientHello's report, or its refusal, for any bytes. Document 01, "Reading" and questions
// 16 to 23. The head is read, the walk over the extensions checks and notes where things are, and one function builds the report.
#![tactic(auto)]

pub mod head;
pub mod reading;
pub mod report;
pub mod walk;

ghost use Rattle.std.specs.Prelude.{◌≡◌, ◌≤◌, length, take};

use fingerprint_lists::Span;
use profiles::{ExtType, Group, first};

// The report: the fields of a ClientHello that a browser is known by. A list is an array with its count, and zeros past it, for there is
// no heap, and the kit's vector in an array is no `Copy`, as a report is; a name is a part of the hello.
#[derive(Clone, Copy)]
pub struct Fingerprint {
    pub legacy_session_id_len: usize,
    pub cipher_suites: [u16; 64],
    pub suite_count: usize,
    pub extensions: [ExtType; 64],
    pub extension_count: usize,
    pub supported_groups: [Group; 64],
    pub group_count: usize,
    pub key_share_groups: [Group; 64],
    pub share_count: usize,
    pub signature_algorithms: [u16; 64],
    pub algorithm_count: usize,
    pub supported_versions: [u16; 64],
    pub version_count: usize,
    pub alpn: [Span; 16],
    pub alpn_count: usize,
    pub sni: Option<Span>,
    pub transport_param_ids: [u64; 64],
    pub id_count: usize,
}

// Each list without what stands past its count.
impl Fingerprint {
    pub fn suites(&self) -> &[u16]
        ensures { (result.now ≡ take self.now.suite_count self.now.cipher_suites) × (length result.now ≤ 64) }
    {
        first(&self.cipher_suites, self.suite_count)
    }

    pub fn extensions(&self) -> &[ExtType]
        ensures { (result.now ≡ take self.now.extension_count self.now.extensions) × (length result.now ≤ 64) }
    {
        first(&self.extensions, self.extension_count)
    }

    pub fn groups(&self) -> &[Group]
        ensures { (result.now ≡ take self.now.group_count self.now.supported_groups) × (length result.now ≤ 64) }
    {
        first(&self.supported_groups, self.group_count)
    }

    pub fn shares(&self) -> &[Group]
        ensures { (result.now ≡ take self.now.share_count self.now.key_share_groups) × (length result.now ≤ 64) }
    {
        first(&self.key_share_groups, self.share_count)
    }

    pub fn algorithms(&self) -> &[u16]
        ensures { (result.now ≡ take self.now.algorithm_count self.now.signature_algorithms) × (length result.now ≤ 64) }
    {
        first(&self.signature_algorithms, self.algorithm_count)
    }

    pub fn versions(&self) -> &[u16]
        ensures { (result.now ≡ take self.now.version_count self.now.supported_versions) × (length result.now ≤ 64) }
    {
        first(&self.supported_versions, self.version_count)
    }

    pub fn protocols(&self) -> &[Span]
        ensures { (result.now ≡ take self.now.alpn_count self.now.alpn) × (length result.now ≤ 16) }
    {
        first(&self.alpn, self.alpn_count)
    }

    pub fn ids(&self) -> &[u64]
        ensures { (result.now ≡ take self.now.id_count self.now.transport_param_ids) × (length result.now ≤ 64) }
    {
        first(&self.transport_param_ids, self.id_count)
    }
}
