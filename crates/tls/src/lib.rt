// The maker (`build_extension` and `generate_client_hello` of tls.rs): a ClientHello from a profile, a name, a connection id and a
// tape of random bytes. Document 01, questions 4 to 9.
#![tactic(auto)]

pub mod building;
pub mod making;

// A hello's length, and how many bytes of the tape were drawn for it.
#[derive(Clone, Copy, PartialEq, Eq, Debug)]
pub struct Hello {
    pub length: usize,
    pub drawn: usize,
}
