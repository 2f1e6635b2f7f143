// TLS extension types (`mod ext` of profiles.rs), each with where it is defined.
use crate::ExtType;

// RFC 6066
pub const SERVER_NAME: ExtType = ExtType(0x0000);

// RFC 6066
pub const STATUS_REQUEST: ExtType = ExtType(0x0005);

// RFC 8446
pub const SUPPORTED_GROUPS: ExtType = ExtType(0x000a);

// RFC 8446
pub const SIGNATURE_ALGORITHMS: ExtType = ExtType(0x000d);

// RFC 7301
pub const ALPN: ExtType = ExtType(0x0010);

// RFC 7627
pub const EXTENDED_MASTER_SECRET: ExtType = ExtType(0x0017);

// RFC 8879
pub const COMPRESS_CERTIFICATE: ExtType = ExtType(0x001b);

// RFC 8449
pub const RECORD_SIZE_LIMIT: ExtType = ExtType(0x001c);

// RFC 9345
pub const DELEGATED_CREDENTIALS: ExtType = ExtType(0x0022);

// RFC 8446
pub const SUPPORTED_VERSIONS: ExtType = ExtType(0x002b);

// RFC 8446
pub const PSK_KEY_EXCHANGE_MODES: ExtType = ExtType(0x002d);

// RFC 8446
pub const KEY_SHARE: ExtType = ExtType(0x0033);

// RFC 9001
pub const QUIC_TRANSPORT_PARAMS: ExtType = ExtType(0x0039);

// draft-vvv-tls-alps
pub const APPLICATION_SETTINGS: ExtType = ExtType(0x44cd);

// draft-ietf-tls-esni
pub const ENCRYPTED_CLIENT_HELLO: ExtType = ExtType(0xfe0d);

// RFC 5746
pub const RENEGOTIATION_INFO: ExtType = ExtType(0xff01);
