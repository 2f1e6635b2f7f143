// Named groups (RFC 8446, section 4.2.7).
use crate::Group;

pub const SECP256R1: Group = Group(0x0017);

pub const SECP384R1: Group = Group(0x0018);

pub const SECP521R1: Group = Group(0x0019);

pub const X25519: Group = Group(0x001d);

// X25519MLKEM768, the post-quantum hybrid.
pub const PQ_HYBRID_GROUP: Group = Group(0x11ec);
