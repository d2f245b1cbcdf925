//! Requests on keys beside another session at the seat (lock: the right to prompt): what
//! `script.rt` serves. Begin with `LATE`. Plain data, made by tools/key-sessions.

use crate::key_children::{AGREED, ASKED, NEXT_TWICE, TWICE};
use crate::key_files::{CHANGED, CLEAR, GRIP, KEY_CHANGES, KEY_COMES_IN, KEY_GOES, KEY_STAYS};
use crate::rows::{KEYS, Row};

/// Another session has had the seat for a minute, and then lets it go: what is sent and answered,
/// with the key files before and behind it.
pub(crate) const LATE: &[Row] = &[
    // For an export.
    Row {
        sent: "KEYWRAP_KEY --export\nEXPORT_KEY 81594C58EF1286E89015A30A5CC2072D343B3307\nKEYINFO 81594C58EF1286E89015A30A5CC2072D343B3307\nEXPORT_KEY 81594C58EF1286E89015A30A5CC2072D343B3307\n",
        answered: "D wraps a key 2415\nOK\nERR 67108926 Timeout <GPG Agent>\nS KEYINFO 81594C58EF1286E89015A30A5CC2072D343B3307 D - - - P - - -\nOK\nD %EE%8Fr%EDi=*?em%E4%D7%AFB;%B8G%D7%AC)%8B%85%D7%E14%CB%F3l&%D8GQ%FBcFg%BF%84%BFN%95%80%8D_.%AB%92%E0\nOK\n",
        children: &[ASKED],
        dice: b"wraps a key 2415",
        ..KEY_STAYS
    },
    // For the old passphrase.
    Row {
        sent: "OPTION s2k-count=65536\nPASSWD 81594C58EF1286E89015A30A5CC2072D343B3307\nKEYINFO 81594C58EF1286E89015A30A5CC2072D343B3307\nPASSWD 81594C58EF1286E89015A30A5CC2072D343B3307\n",
        answered: "OK\nERR 67108926 Timeout <GPG Agent>\nS KEYINFO 81594C58EF1286E89015A30A5CC2072D343B3307 D - - - P - - -\nOK\nOK\n",
        children: &[ASKED, NEXT_TWICE],
        ..KEY_CHANGES
    },
    // For the new one of a clear key.
    Row {
        sent: "OPTION s2k-count=65536\nPASSWD 81594C58EF1286E89015A30A5CC2072D343B3307\nKEYINFO 81594C58EF1286E89015A30A5CC2072D343B3307\nPASSWD 81594C58EF1286E89015A30A5CC2072D343B3307\n",
        answered: "OK\nERR 67108926 Timeout <GPG Agent>\nS KEYINFO 81594C58EF1286E89015A30A5CC2072D343B3307 D - - - C - - -\nOK\nOK\n",
        files: &[(GRIP, CLEAR)],
        files_after: Some(&[(GRIP, CHANGED)]),
        children: &[NEXT_TWICE],
        dice: b" !\"#$%&'()*+,-./0123",
        ..KEYS
    },
    // For one that is verified.
    Row {
        sent: "PASSWD --verify 81594C58EF1286E89015A30A5CC2072D343B3307\nKEYINFO 81594C58EF1286E89015A30A5CC2072D343B3307\nPASSWD --verify 81594C58EF1286E89015A30A5CC2072D343B3307\n",
        answered: "ERR 67108926 Timeout <GPG Agent>\nS KEYINFO 81594C58EF1286E89015A30A5CC2072D343B3307 D - - - P - - -\nOK\nOK\n",
        children: &[ASKED],
        ..KEY_STAYS
    },
    // For a key that comes in: no file is written.
    Row {
        sent: "OPTION s2k-count=65536\nKEYWRAP_KEY --import\nIMPORT_KEY\nD %EE%8F%72%ED%69%3D%2A%3F%65%6D%E4%D7%AF%42%3B%B8%47%D7%AC%29%8B%85%D7%E1%34%CB%F3%6C%26%D8%47%51%FB%63%46%67%BF%84%BF%4E%95%80%8D%5F%2E%AB%92%E0\nEND\nHAVEKEY 81594C58EF1286E89015A30A5CC2072D343B3307\nGET_PASSPHRASE --no-ask 81594C58EF1286E89015A30A5CC2072D343B3307\nIMPORT_KEY\nD %EE%8F%72%ED%69%3D%2A%3F%65%6D%E4%D7%AF%42%3B%B8%47%D7%AC%29%8B%85%D7%E1%34%CB%F3%6C%26%D8%47%51%FB%63%46%67%BF%84%BF%4E%95%80%8D%5F%2E%AB%92%E0\nEND\n",
        answered: "OK\nD wraps a key 2415\nOK\nS INQUIRE_MAXLEN 65544\nINQUIRE KEYDATA\nERR 67108926 Timeout <GPG Agent>\nERR 67108881 No secret key <GPG Agent>\nERR 67108922 No data <GPG Agent>\nS INQUIRE_MAXLEN 65544\nINQUIRE KEYDATA\nS CACHE_NONCE A0A1A2A3A4A5A6A7A8A9AAAB\nOK\n",
        children: &[TWICE],
        ..KEY_COMES_IN
    },
    // For consent: the key stays.
    Row {
        sent: "DELETE_KEY 81594C58EF1286E89015A30A5CC2072D343B3307\nKEYINFO 81594C58EF1286E89015A30A5CC2072D343B3307\nDELETE_KEY 81594C58EF1286E89015A30A5CC2072D343B3307\n",
        answered: "ERR 67108926 Timeout <GPG Agent>\nS KEYINFO 81594C58EF1286E89015A30A5CC2072D343B3307 D - - - P - - -\nOK\nOK\n",
        children: &[AGREED],
        ..KEY_GOES
    },
];

/// Another session has the seat throughout, and none is wanted: six turns on the cache: what is
/// sent and answered, with the key files before and behind it.
pub(crate) const BESIDE: &[Row] = &[
    // Nonces give the old passphrase and the new one, which is kept.
    Row {
        sent: "OPTION s2k-count=65536\nPRESET_PASSPHRASE old -1 6162636465666731\nPRESET_PASSPHRASE new -1 68696a6b6c6d6e32\nPASSWD --cache-nonce=old --passwd-nonce=new 81594C58EF1286E89015A30A5CC2072D343B3307\nKEYINFO 81594C58EF1286E89015A30A5CC2072D343B3307\n",
        answered: "OK\nOK\nOK\nOK\nS KEYINFO 81594C58EF1286E89015A30A5CC2072D343B3307 D - - 1 P - - -\nOK\n",
        ..KEY_CHANGES
    },
    // The old one is cached for the key.
    Row {
        sent: "OPTION s2k-count=65536\nPRESET_PASSPHRASE 81594C58EF1286E89015A30A5CC2072D343B3307 -1 6162636465666731\nPRESET_PASSPHRASE new -1 68696a6b6c6d6e32\nPASSWD --passwd-nonce=new 81594C58EF1286E89015A30A5CC2072D343B3307\nKEYINFO 81594C58EF1286E89015A30A5CC2072D343B3307\n",
        answered: "OK\nOK\nOK\nOK\nS KEYINFO 81594C58EF1286E89015A30A5CC2072D343B3307 D - - 1 P - - -\nOK\n",
        ..KEY_CHANGES
    },
    // A key comes in by a nonce.
    Row {
        sent: "OPTION s2k-count=65536\nPRESET_PASSPHRASE new -1 6162636465666731\nKEYWRAP_KEY --import\nIMPORT_KEY new\nD %EE%8F%72%ED%69%3D%2A%3F%65%6D%E4%D7%AF%42%3B%B8%47%D7%AC%29%8B%85%D7%E1%34%CB%F3%6C%26%D8%47%51%FB%63%46%67%BF%84%BF%4E%95%80%8D%5F%2E%AB%92%E0\nEND\nKEYINFO 81594C58EF1286E89015A30A5CC2072D343B3307\nKEYINFO 81594C58EF1286E89015A30A5CC2072D343B3307\n",
        answered: "OK\nOK\nD wraps a key 2415\nOK\nS INQUIRE_MAXLEN 65544\nINQUIRE KEYDATA\nS CACHE_NONCE A0A1A2A3A4A5A6A7A8A9AAAB\nOK\nS KEYINFO 81594C58EF1286E89015A30A5CC2072D343B3307 D - - 1 P - - -\nOK\nS KEYINFO 81594C58EF1286E89015A30A5CC2072D343B3307 D - - 1 P - - -\nOK\n",
        ..KEY_COMES_IN
    },
];

/// Another session lets the seat go before the fifth turn on the cache is over: what is sent and
/// answered, with the key files before and behind it.
pub(crate) const BEHIND: &[Row] = &[
    // An unknown nonce gives no new passphrase, and the prompt for one waits for the seat.
    Row {
        sent: "OPTION s2k-count=65536\nPRESET_PASSPHRASE old -1 6162636465666731\nPRESET_PASSPHRASE new -1 68696a6b6c6d6e32\nPASSWD --cache-nonce=old --passwd-nonce=unknown 81594C58EF1286E89015A30A5CC2072D343B3307\nKEYINFO 81594C58EF1286E89015A30A5CC2072D343B3307\n",
        answered: "OK\nOK\nOK\nOK\nS KEYINFO 81594C58EF1286E89015A30A5CC2072D343B3307 D - - 1 P - - -\nOK\n",
        children: &[NEXT_TWICE],
        ..KEY_CHANGES
    },
];
