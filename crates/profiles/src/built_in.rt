// The three profiles: each is a row of every table.
ghost use Rattle.std.specs.Prelude.{◌≡◌, [], get_or};
ghost use Rattle.profiles.specs.Code.{browser_number, Chosen};

use crate::tables::{
    ALGORITHM_COUNTS, ALGORITHMS, CIPHER_SUITES, EXTENSION_COUNTS, EXTENSIONS_ORDER,
    FIREFOX_COMPRESSION, GROUP_COUNTS, GROUPS, LONGEST, PARAMETER_COUNTS, PARAMETERS, PROTOCOLS,
    RANDOMIZE_EXTENSIONS_ORDER, SCID_SOURCES, SHARE_COUNTS, SHARES, SUITE_COUNTS, TAPE_NEEDED,
    USE_EMPTY_SESSION_ID, VERSION_COUNTS, VERSIONS,
};
use crate::{Browser, Profile};

// The row of a browser. The table is lent: one that is indexed by a variable is laid out anew at each call.
fn row<T: Copy, const N: usize>(table: &[[T; N]; 3], browser: Browser) -> [T; N]
    ensures { result ≡ get_or table.now (browser_number browser) [] }
{
    table[browser.number()]
}

// The profile of a browser. What makes a hello of it does not know the browser any more.
pub fn for_browser(browser: Browser) -> Profile
    ensures { Chosen (browser_number browser) result }
{
    let at = browser.number();
    Profile {
        cipher_suites: row(&CIPHER_SUITES, browser),
        suite_count: SUITE_COUNTS[at],
        extensions_order: row(&EXTENSIONS_ORDER, browser),
        extension_count: EXTENSION_COUNTS[at],
        supported_groups: row(&GROUPS, browser),
        group_count: GROUP_COUNTS[at],
        signature_algorithms: row(&ALGORITHMS, browser),
        algorithm_count: ALGORITHM_COUNTS[at],
        supported_versions: row(&VERSIONS, browser),
        version_count: VERSION_COUNTS[at],
        key_share_groups: row(&SHARES, browser),
        share_count: SHARE_COUNTS[at],
        alpn: row(&PROTOCOLS, browser),
        quic_tp: row(&PARAMETERS, browser),
        parameter_count: PARAMETER_COUNTS[at],
        firefox_compression: FIREFOX_COMPRESSION[at],
        use_empty_session_id: USE_EMPTY_SESSION_ID[at],
        randomize_extensions_order: RANDOMIZE_EXTENSIONS_ORDER[at],
        tape_needed: TAPE_NEEDED[at],
        longest: LONGEST[at],
        scid_sources: SCID_SOURCES[at],
    }
}
