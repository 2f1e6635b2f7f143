// The tables of profiles.rs, a row for each profile: Chrome, Firefox, curl. A row has room for what a customer may list; a count says
// where it ends. The tables, those of the counts
// among them, stand side by side by a rule of the project: tables are constants, indexed by profile.
use crate::ext::{
    ALPN, APPLICATION_SETTINGS, COMPRESS_CERTIFICATE, DELEGATED_CREDENTIALS,
    ENCRYPTED_CLIENT_HELLO, EXTENDED_MASTER_SECRET, KEY_SHARE, PSK_KEY_EXCHANGE_MODES,
    QUIC_TRANSPORT_PARAMS, RECORD_SIZE_LIMIT, RENEGOTIATION_INFO, SERVER_NAME,
    SIGNATURE_ALGORITHMS, STATUS_REQUEST, SUPPORTED_GROUPS, SUPPORTED_VERSIONS,
};
use crate::named_groups::{PQ_HYBRID_GROUP, SECP256R1, SECP384R1, SECP521R1, X25519};
use crate::{ExtType, Group, TpEntry};

// What stands past the end of a list of types, of groups, of parameters.
const NO_TYPE: ExtType = ExtType(0);

const NO_GROUP: Group = Group(0);

const NONE: TpEntry = TpEntry::Varint(0, 0);

pub const CIPHER_SUITES: [[u16; 16]; 3] = [
    [
        0x1301, 0x1302, 0x1303, 0, 0, 0, 0, 0, 0, 0, 0, 0, 0, 0, 0, 0,
    ],
    [
        0x1301, 0x1303, 0x1302, 0, 0, 0, 0, 0, 0, 0, 0, 0, 0, 0, 0, 0,
    ],
    [
        0x1301, 0x1302, 0x1303, 0, 0, 0, 0, 0, 0, 0, 0, 0, 0, 0, 0, 0,
    ],
];

pub const SUITE_COUNTS: [usize; 3] = [3, 3, 3];

pub const EXTENSIONS_ORDER: [[ExtType; 16]; 3] = [
    [
        SERVER_NAME,
        SUPPORTED_GROUPS,
        SIGNATURE_ALGORITHMS,
        ALPN,
        COMPRESS_CERTIFICATE,
        SUPPORTED_VERSIONS,
        PSK_KEY_EXCHANGE_MODES,
        KEY_SHARE,
        QUIC_TRANSPORT_PARAMS,
        APPLICATION_SETTINGS,
        ENCRYPTED_CLIENT_HELLO,
        NO_TYPE,
        NO_TYPE,
        NO_TYPE,
        NO_TYPE,
        NO_TYPE,
    ],
    [
        SERVER_NAME,
        STATUS_REQUEST,
        DELEGATED_CREDENTIALS,
        SIGNATURE_ALGORITHMS,
        SUPPORTED_GROUPS,
        EXTENDED_MASTER_SECRET,
        RENEGOTIATION_INFO,
        RECORD_SIZE_LIMIT,
        PSK_KEY_EXCHANGE_MODES,
        COMPRESS_CERTIFICATE,
        KEY_SHARE,
        ALPN,
        SUPPORTED_VERSIONS,
        QUIC_TRANSPORT_PARAMS,
        ENCRYPTED_CLIENT_HELLO,
        NO_TYPE,
    ],
    [
        SERVER_NAME,
        SUPPORTED_VERSIONS,
        SUPPORTED_GROUPS,
        SIGNATURE_ALGORITHMS,
        ALPN,
        KEY_SHARE,
        PSK_KEY_EXCHANGE_MODES,
        QUIC_TRANSPORT_PARAMS,
        COMPRESS_CERTIFICATE,
        ENCRYPTED_CLIENT_HELLO,
        NO_TYPE,
        NO_TYPE,
        NO_TYPE,
        NO_TYPE,
        NO_TYPE,
        NO_TYPE,
    ],
];

pub const EXTENSION_COUNTS: [usize; 3] = [11, 15, 10];

pub const GROUPS: [[Group; 8]; 3] = [
    [
        PQ_HYBRID_GROUP,
        X25519,
        SECP256R1,
        SECP384R1,
        NO_GROUP,
        NO_GROUP,
        NO_GROUP,
        NO_GROUP,
    ],
    [
        PQ_HYBRID_GROUP,
        X25519,
        SECP256R1,
        SECP384R1,
        SECP521R1,
        NO_GROUP,
        NO_GROUP,
        NO_GROUP,
    ],
    [
        X25519, SECP256R1, SECP384R1, NO_GROUP, NO_GROUP, NO_GROUP, NO_GROUP, NO_GROUP,
    ],
];

pub const GROUP_COUNTS: [usize; 3] = [4, 5, 3];

pub const ALGORITHMS: [[u16; 16]; 3] = [
    [
        0x0403, 0x0804, 0x0401, 0x0503, 0x0805, 0x0501, 0x0806, 0x0601, 0x0201, 0, 0, 0, 0, 0, 0, 0,
    ],
    [
        0x0403, 0x0503, 0x0603, 0x0203, 0x0804, 0x0805, 0x0806, 0x0401, 0x0501, 0x0601, 0x0201, 0,
        0, 0, 0, 0,
    ],
    [
        0x0403, 0x0503, 0x0603, 0x0804, 0x0805, 0x0806, 0, 0, 0, 0, 0, 0, 0, 0, 0, 0,
    ],
];

pub const ALGORITHM_COUNTS: [usize; 3] = [9, 11, 6];

pub const VERSIONS: [[u16; 4]; 3] = [[0x0304, 0, 0, 0], [0x0304, 0, 0, 0], [0x0304, 0, 0, 0]];

pub const VERSION_COUNTS: [usize; 3] = [1, 1, 1];

pub const SHARES: [[Group; 4]; 3] = [
    [PQ_HYBRID_GROUP, X25519, NO_GROUP, NO_GROUP],
    [PQ_HYBRID_GROUP, X25519, SECP256R1, NO_GROUP],
    [X25519, NO_GROUP, NO_GROUP, NO_GROUP],
];

pub const SHARE_COUNTS: [usize; 3] = [2, 3, 1];

// "h3"
pub const PROTOCOLS: [[u8; 2]; 3] = [[0x68, 0x33], [0x68, 0x33], [0x68, 0x33]];

const CHROME_PARAMETERS: [TpEntry; 16] = [
    TpEntry::Varint(0x04, 15728640),
    TpEntry::Bytes(0x0f, b""),
    TpEntry::Varint(0x07, 6291456),
    TpEntry::Varint(0x05, 6291456),
    TpEntry::Varint(0x03, 1472),
    TpEntry::Varint(0x06, 6291456),
    TpEntry::Varint(0x08, 100),
    TpEntry::Varint(0x3127, 18196),
    TpEntry::Varint(0x20, 65536),
    TpEntry::VersionInfo(0x11),
    TpEntry::Varint(0x01, 30000),
    TpEntry::Varint(0x09, 103),
    TpEntry::Grease,
    NONE,
    NONE,
    NONE,
];

const FIREFOX_PARAMETERS: [TpEntry; 16] = [
    TpEntry::Varint(0x01, 30000),
    TpEntry::Varint(0x04, 25165824),
    TpEntry::Varint(0x05, 12582912),
    TpEntry::Varint(0x06, 1048576),
    TpEntry::Varint(0x07, 1048576),
    TpEntry::Varint(0x08, 100),
    TpEntry::Varint(0x09, 100),
    TpEntry::Varint(0x0b, 20),
    TpEntry::Varint(0x0e, 8),
    TpEntry::ScidSource(0x0f),
    TpEntry::VersionInfo(0x11),
    TpEntry::Bytes(0xff02de1a, b"\x43\xe8"),
    TpEntry::Varint(0x20, 65535),
    NONE,
    NONE,
    NONE,
];

const CURL_PARAMETERS: [TpEntry; 16] = [
    TpEntry::Varint(0x01, 30000),
    TpEntry::Varint(0x03, 1472),
    TpEntry::Varint(0x04, 10485760),
    TpEntry::Varint(0x05, 5242880),
    TpEntry::Varint(0x06, 5242880),
    TpEntry::Varint(0x07, 5242880),
    TpEntry::Varint(0x08, 100),
    TpEntry::Varint(0x09, 100),
    TpEntry::Varint(0x0e, 2),
    TpEntry::Bytes(0x0f, b""),
    NONE,
    NONE,
    NONE,
    NONE,
    NONE,
    NONE,
];

pub const PARAMETERS: [[TpEntry; 16]; 3] = [CHROME_PARAMETERS, FIREFOX_PARAMETERS, CURL_PARAMETERS];

pub const PARAMETER_COUNTS: [usize; 3] = [13, 13, 10];

pub const FIREFOX_COMPRESSION: [bool; 3] = [false, true, false];

pub const USE_EMPTY_SESSION_ID: [bool; 3] = [true, true, false];

pub const RANDOMIZE_EXTENSIONS_ORDER: [bool; 3] = [true, true, false];

// Document 01's table: tape needed; hello length with P = 200, but for n and s; whether s is in it.
pub const TAPE_NEEDED: [usize; 3] = [1726, 1808, 416];

pub const LONGEST: [usize; 3] = [1734, 1833, 490];

pub const SCID_SOURCES: [usize; 3] = [0, 1, 0];
