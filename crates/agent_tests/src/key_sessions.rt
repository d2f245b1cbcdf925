//! Keys are listed, exported, taken in and changed: what `keys.rt` serves. Begin with `LISTS`.
//! Plain data, made by tools/key-sessions.

use crate::key_children::{
    AGREED, ASKED, KEPT, NEW_PROMPT, NEXT_TWICE, OLD_PROMPT, TWICE, UNASKED, VERIFIED,
};
use crate::key_files::{
    BY_CBC, BY_OCB, CHANGED, CHANGED_LATER, CLEAR, DSA, DSA_GRIP, EMPTY, EXTENDED,
    EXTENDED_CHANGED, GRIP, IN_AGAIN, IN_LATER, KEY_CHANGES, KEY_COMES_IN, KEY_GOES, KEY_STAYS,
    SHADOWED, WITHOUT_KEY,
};
use crate::rows::{KEYS, Row};

/// Keys are looked at, listed and deleted: what is sent and answered, with the key files before and
/// behind it.
pub(crate) const LISTS: &[Row] = &[
    // What is known of a clear key, and its end.
    Row {
        sent: "KEYINFO 81594C58EF1286E89015A30A5CC2072D343B3307\nHAVEKEY 0000000000000000000000000000000000000001 81594C58EF1286E89015A30A5CC2072D343B3307\nDELETE_KEY --force 81594c58ef1286e89015a30a5cc2072d343b3307\nDELETE_KEY --force 81594C58EF1286E89015A30A5CC2072D343B3307\nHAVEKEY 81594C58EF1286E89015A30A5CC2072D343B3307\nKEYINFO 81594C58EF1286E89015A30A5CC2072D343B3307\n",
        answered: "S KEYINFO 81594C58EF1286E89015A30A5CC2072D343B3307 D - - - C - - -\nOK\nOK\nOK\nERR 67108881 No secret key <GPG Agent>\nERR 67108881 No secret key <GPG Agent>\nERR 67108881 No secret key <GPG Agent>\n",
        files: &[(GRIP, CLEAR)],
        files_after: Some(&[]),
        ..KEYS
    },
    // All keys, ascending; files that are none are passed over.
    Row {
        sent: "KEYINFO --list\n",
        answered: "S KEYINFO 0000000000000000000000000000000000000001 D - - - C - - -\nS KEYINFO 81594C58EF1286E89015A30A5CC2072D343B3307 D - - - P - - -\nOK\n",
        files: &[
            (DSA_GRIP, DSA),
            (GRIP, BY_CBC),
            ("AAAAAAAAAAAAAAAAAAAAAAAAAAAAAAAAAAAAAAAA", SHADOWED),
            ("ABABABABABABABABABABABABABABABABABABABAB", EMPTY),
            ("FFFFFFFFFFFFFFFFFFFFFFFFFFFFFFFFFFFFFFFF", WITHOUT_KEY),
        ],
        files_after: Some(&[
            (DSA_GRIP, DSA),
            (GRIP, BY_CBC),
            ("AAAAAAAAAAAAAAAAAAAAAAAAAAAAAAAAAAAAAAAA", SHADOWED),
            ("ABABABABABABABABABABABABABABABABABABABAB", EMPTY),
            ("FFFFFFFFFFFFFFFFFFFFFFFFFFFFFFFFFFFFFFFF", WITHOUT_KEY),
        ]),
        ..KEYS
    },
    // Of one that is none.
    Row {
        sent: "KEYINFO AAAAAAAAAAAAAAAAAAAAAAAAAAAAAAAAAAAAAAAA\nKEYINFO ABABABABABABABABABABABABABABABABABABABAB\nKEYINFO FFFFFFFFFFFFFFFFFFFFFFFFFFFFFFFFFFFFFFFF\nHAVEKEY ABABABABABABABABABABABABABABABABABABABAB\nKEYINFO\nKEYINFO 00\nHAVEKEY\nHAVEKEY 81594C58EF1286E89015A30A5CC2072D343B3307 00\n",
        answered: "ERR 67108924 Not supported <GPG Agent>\nERR 67108947 Invalid S-expression <GPG Agent>\nERR 67108947 Invalid S-expression <GPG Agent>\nOK\nERR 67109144 IPC parameter error <GPG Agent>\nERR 67109144 IPC parameter error <GPG Agent>\nERR 67109144 IPC parameter error <GPG Agent>\nERR 67109144 IPC parameter error <GPG Agent>\n",
        files: &[
            ("AAAAAAAAAAAAAAAAAAAAAAAAAAAAAAAAAAAAAAAA", SHADOWED),
            ("ABABABABABABABABABABABABABABABABABABABAB", EMPTY),
            ("FFFFFFFFFFFFFFFFFFFFFFFFFFFFFFFFFFFFFFFF", WITHOUT_KEY),
        ],
        files_after: Some(&[
            ("AAAAAAAAAAAAAAAAAAAAAAAAAAAAAAAAAAAAAAAA", SHADOWED),
            ("ABABABABABABABABABABABABABABABABABABABAB", EMPTY),
            ("FFFFFFFFFFFFFFFFFFFFFFFFFFFFFFFFFFFFFFFF", WITHOUT_KEY),
        ]),
        ..KEYS
    },
    // The grips of all keys, ascending, whatever their files are; what stands behind the option is
    // passed over, and the number limits nothing.
    Row {
        sent: "HAVEKEY --list\nhavekey --list=1 00\nHAVEKEY --list --list=0000000001 -- x\n",
        answered: "D \x00\x00\x00\x00\x00\x00\x00\x00\x00\x00\x00\x00\x00\x00\x00\x00\x00\x00\x00\x01%81YLX%EF\x12%86%E8%90\x15%A3%0A\\%C2\x07-4;3\x07\nOK\nD \x00\x00\x00\x00\x00\x00\x00\x00\x00\x00\x00\x00\x00\x00\x00\x00\x00\x00\x00\x01%81YLX%EF\x12%86%E8%90\x15%A3%0A\\%C2\x07-4;3\x07\nOK\nD \x00\x00\x00\x00\x00\x00\x00\x00\x00\x00\x00\x00\x00\x00\x00\x00\x00\x00\x00\x01%81YLX%EF\x12%86%E8%90\x15%A3%0A\\%C2\x07-4;3\x07\nOK\n",
        files: &[(DSA_GRIP, WITHOUT_KEY), (GRIP, BY_CBC)],
        files_after: Some(&[(DSA_GRIP, WITHOUT_KEY), (GRIP, BY_CBC)]),
        ..KEYS
    },
    // Of none, and with a number that is none.
    Row {
        sent: "HAVEKEY --list\nHAVEKEY --list=0\nHAVEKEY --list=00000000001\nHAVEKEY --list=\nHAVEKEY --list=1x\nHAVEKEY -- --list\n",
        answered: "OK\nERR 67109144 IPC parameter error <GPG Agent>\nERR 67109144 IPC parameter error <GPG Agent>\nERR 67109144 IPC parameter error <GPG Agent>\nERR 67109144 IPC parameter error <GPG Agent>\nERR 67109144 IPC parameter error <GPG Agent>\n",
        files_after: Some(&[]),
        ..KEYS
    },
];

/// Keys are exported: what is sent and answered, with the key files before and behind it.
pub(crate) const EXPORTS: &[Row] = &[
    // A key is exported only under a key that was drawn for that.
    Row {
        sent: "EXPORT_KEY 81594C58EF1286E89015A30A5CC2072D343B3307\nKEYWRAP_KEY\nKEYWRAP_KEY --import --export\nKEYWRAP_KEY --import\nEXPORT_KEY 81594C58EF1286E89015A30A5CC2072D343B3307\nKEYWRAP_KEY --export\nRESET\nKEYWRAP_KEY --import\nEXPORT_KEY 81594C58EF1286E89015A30A5CC2072D343B3307\n",
        answered: "ERR 67109144 IPC parameter error <GPG Agent>\nERR 67109144 IPC parameter error <GPG Agent>\nERR 67109144 IPC parameter error <GPG Agent>\nD defghijklmnopqrs\nOK\nERR 67109144 IPC parameter error <GPG Agent>\nD wraps a key 2415\nOK\nOK\nD defghijklmnopqrs\nOK\nD %EE%8Fr%EDi=*?em%E4%D7%AFB;%B8G%D7%AC)%8B%85%D7%E14%CB%F3l&%D8GQ%FBcFg%BF%84%BFN%95%80%8D_.%AB%92%E0\nOK\n",
        files: &[(GRIP, CLEAR)],
        files_after: Some(&[(GRIP, CLEAR)]),
        dice: b"defghijklmnopqrswraps a key 2415",
        ..KEYS
    },
    // No bytes are drawn, and then some.
    Row {
        sent: "KEYWRAP_KEY --export\nKEYWRAP_KEY --export\nKEYWRAP_KEY --import\n",
        answered: "ERR 67108865 General error <GPG Agent>\nD wraps a key 2415\nOK\nERR 67108865 General error <GPG Agent>\n",
        files_after: Some(&[]),
        dice: b"wraps a key 2415",
        draw_faults: &[0],
        ..KEYS
    },
    // Two wrong pins and the right one. It is kept.
    Row {
        sent: "KEYWRAP_KEY --export\nEXPORT_KEY 81594C58EF1286E89015A30A5CC2072D343B3307\nKEYINFO 81594C58EF1286E89015A30A5CC2072D343B3307\nEXPORT_KEY 81594C58EF1286E89015A30A5CC2072D343B3307\n",
        answered: "D wraps a key 2415\nOK\nD %EE%8Fr%EDi=*?em%E4%D7%AFB;%B8G%D7%AC)%8B%85%D7%E14%CB%F3l&%D8GQ%FBcFg%BF%84%BFN%95%80%8D_.%AB%92%E0\nOK\nS KEYINFO 81594C58EF1286E89015A30A5CC2072D343B3307 D - - 1 P - - -\nOK\nD %EE%8Fr%EDi=*?em%E4%D7%AFB;%B8G%D7%AC)%8B%85%D7%E14%CB%F3l&%D8GQ%FBcFg%BF%84%BFN%95%80%8D_.%AB%92%E0\nOK\n",
        children: &[(
            OLD_PROMPT,
            "D a\nOK\nOK\nD b\nOK\nOK\nD abcdefg1\nOK\n",
            "GETPIN\nSETERROR Bad passphrase (try 2 of 3)\nGETPIN\nSETERROR Bad passphrase (try 3 of 3)\nGETPIN\nBYE\n",
        )],
        dice: b"wraps a key 2415",
        ..KEY_STAYS
    },
    // Three wrong pins are an end, and none is kept. The seat is free.
    Row {
        sent: "KEYWRAP_KEY --export\nEXPORT_KEY 81594C58EF1286E89015A30A5CC2072D343B3307\nKEYINFO 81594C58EF1286E89015A30A5CC2072D343B3307\nEXPORT_KEY 81594C58EF1286E89015A30A5CC2072D343B3307\n",
        answered: "D wraps a key 2415\nOK\nERR 67108875 Bad passphrase <GPG Agent>\nS KEYINFO 81594C58EF1286E89015A30A5CC2072D343B3307 D - - - P - - -\nOK\nD %EE%8Fr%EDi=*?em%E4%D7%AFB;%B8G%D7%AC)%8B%85%D7%E14%CB%F3l&%D8GQ%FBcFg%BF%84%BFN%95%80%8D_.%AB%92%E0\nOK\n",
        children: &[
            (
                OLD_PROMPT,
                "D a\nOK\nOK\nD b\nOK\nOK\nD c\nOK\n",
                "GETPIN\nSETERROR Bad passphrase (try 2 of 3)\nGETPIN\nSETERROR Bad passphrase (try 3 of 3)\nGETPIN\nBYE\n",
            ),
            ASKED,
        ],
        dice: b"wraps a key 2415",
        ..KEY_STAYS
    },
    // A wrong passphrase in the cache is passed over, and the right one is kept in its place.
    Row {
        sent: "KEYWRAP_KEY --export\nPRESET_PASSPHRASE 81594C58EF1286E89015A30A5CC2072D343B3307 -1 61\nEXPORT_KEY 81594C58EF1286E89015A30A5CC2072D343B3307\nEXPORT_KEY 81594C58EF1286E89015A30A5CC2072D343B3307\n",
        answered: "D wraps a key 2415\nOK\nOK\nD %EE%8Fr%EDi=*?em%E4%D7%AFB;%B8G%D7%AC)%8B%85%D7%E14%CB%F3l&%D8GQ%FBcFg%BF%84%BFN%95%80%8D_.%AB%92%E0\nOK\nD %EE%8Fr%EDi=*?em%E4%D7%AFB;%B8G%D7%AC)%8B%85%D7%E14%CB%F3l&%D8GQ%FBcFg%BF%84%BFN%95%80%8D_.%AB%92%E0\nOK\n",
        children: &[ASKED],
        dice: b"wraps a key 2415",
        ..KEY_STAYS
    },
    // The user cancels, or doesn't answer.
    Row {
        sent: "KEYWRAP_KEY --export\nEXPORT_KEY 81594C58EF1286E89015A30A5CC2072D343B3307\nEXPORT_KEY 81594C58EF1286E89015A30A5CC2072D343B3307\n",
        answered: "D wraps a key 2415\nOK\nERR 83886179 Operation cancelled <Pinentry>\nERR 83886142 Timeout <Pinentry>\n",
        children: &[
            (OLD_PROMPT, "ERR 83886179\n", "GETPIN\nBYE\n"),
            (OLD_PROMPT, "ERR 62\n", "GETPIN\nBYE\n"),
        ],
        dice: b"wraps a key 2415",
        ..KEY_STAYS
    },
    // Nobody is prompted in other modes.
    Row {
        sent: "KEYWRAP_KEY --export\nOPTION pinentry-mode=cancel\nEXPORT_KEY 81594C58EF1286E89015A30A5CC2072D343B3307\nPASSWD 81594C58EF1286E89015A30A5CC2072D343B3307\nPASSWD --verify 81594C58EF1286E89015A30A5CC2072D343B3307\nDELETE_KEY 81594C58EF1286E89015A30A5CC2072D343B3307\nOPTION pinentry-mode=error\nEXPORT_KEY 81594C58EF1286E89015A30A5CC2072D343B3307\nPASSWD 81594C58EF1286E89015A30A5CC2072D343B3307\nPASSWD --verify 81594C58EF1286E89015A30A5CC2072D343B3307\nDELETE_KEY 81594C58EF1286E89015A30A5CC2072D343B3307\nOPTION pinentry-mode=loopback\nDELETE_KEY 81594C58EF1286E89015A30A5CC2072D343B3307\n",
        answered: "D wraps a key 2415\nOK\nOK\nERR 67108963 Operation cancelled <GPG Agent>\nERR 67108963 Operation cancelled <GPG Agent>\nERR 67108963 Operation cancelled <GPG Agent>\nERR 67108963 Operation cancelled <GPG Agent>\nOK\nERR 67108950 No pinentry <GPG Agent>\nERR 67108950 No pinentry <GPG Agent>\nERR 67108950 No pinentry <GPG Agent>\nERR 67108950 No pinentry <GPG Agent>\nOK\nERR 67108950 No pinentry <GPG Agent>\n",
        dice: b"wraps a key 2415",
        ..KEY_STAYS
    },
    // The client gives the passphrase; one that opens the key is kept.
    Row {
        sent: "OPTION pinentry-mode=loopback\nKEYWRAP_KEY --export\nEXPORT_KEY 81594C58EF1286E89015A30A5CC2072D343B3307\nD a\nEND\nEXPORT_KEY 81594C58EF1286E89015A30A5CC2072D343B3307\nCAN\nEXPORT_KEY 81594C58EF1286E89015A30A5CC2072D343B3307\nD abcdefg1\nEND\nEXPORT_KEY 81594C58EF1286E89015A30A5CC2072D343B3307\n",
        answered: "OK\nD wraps a key 2415\nOK\nS INQUIRE_MAXLEN 255\nINQUIRE PASSPHRASE\nERR 67108875 Bad passphrase <GPG Agent>\nS INQUIRE_MAXLEN 255\nINQUIRE PASSPHRASE\nERR 67108963 Operation cancelled <GPG Agent>\nS INQUIRE_MAXLEN 255\nINQUIRE PASSPHRASE\nD %EE%8Fr%EDi=*?em%E4%D7%AFB;%B8G%D7%AC)%8B%85%D7%E14%CB%F3l&%D8GQ%FBcFg%BF%84%BFN%95%80%8D_.%AB%92%E0\nOK\nD %EE%8Fr%EDi=*?em%E4%D7%AFB;%B8G%D7%AC)%8B%85%D7%E14%CB%F3l&%D8GQ%FBcFg%BF%84%BFN%95%80%8D_.%AB%92%E0\nOK\n",
        dice: b"wraps a key 2415",
        ..KEY_STAYS
    },
    // By the nonce that its import drew nobody is asked, and nothing is kept for the key.
    Row {
        sent: "OPTION s2k-count=65536\nKEYWRAP_KEY --import\nIMPORT_KEY\nD %EE%8F%72%ED%69%3D%2A%3F%65%6D%E4%D7%AF%42%3B%B8%47%D7%AC%29%8B%85%D7%E1%34%CB%F3%6C%26%D8%47%51%FB%63%46%67%BF%84%BF%4E%95%80%8D%5F%2E%AB%92%E0\nEND\nCLEAR_PASSPHRASE --mode=normal 81594C58EF1286E89015A30A5CC2072D343B3307\nKEYWRAP_KEY --export\nEXPORT_KEY --cache-nonce=A0A1A2A3A4A5A6A7A8A9AAAB 81594C58EF1286E89015A30A5CC2072D343B3307\nKEYINFO 81594C58EF1286E89015A30A5CC2072D343B3307\nEXPORT_KEY 81594C58EF1286E89015A30A5CC2072D343B3307\n",
        answered: "OK\nD wraps a key 2415\nOK\nS INQUIRE_MAXLEN 65544\nINQUIRE KEYDATA\nS CACHE_NONCE A0A1A2A3A4A5A6A7A8A9AAAB\nOK\nOK\nD defghijklmnopqrs\nOK\nD %BEB%E9\x05\x18%BC7+%EE,C%C4%C9%9Bz\x01B|%85%FC%E0\x06`^z%FF%B5%C0%92\x7f a\x10%F1%B9%FC%D1%A1%D1\x1b%D3*%A8%C9Y%D1s%F0\nOK\nS KEYINFO 81594C58EF1286E89015A30A5CC2072D343B3307 D - - - P - - -\nOK\nD %BEB%E9\x05\x18%BC7+%EE,C%C4%C9%9Bz\x01B|%85%FC%E0\x06`^z%FF%B5%C0%92\x7f a\x10%F1%B9%FC%D1%A1%D1\x1b%D3*%A8%C9Y%D1s%F0\nOK\n",
        children: &[TWICE, ASKED],
        dice: b"wraps a key 2415 !\"#$%&'()*+,-./0123\xa0\xa1\xa2\xa3\xa4\xa5\xa6\xa7\xa8\xa9\xaa\xabdefghijklmnopqrs",
        ..KEY_COMES_IN
    },
    // A nonce that is unknown, or under which a wrong passphrase is cached, gives way to what is
    // cached for the key.
    Row {
        sent: "KEYWRAP_KEY --export\nPRESET_PASSPHRASE wrong -1 61\nPRESET_PASSPHRASE 81594C58EF1286E89015A30A5CC2072D343B3307 -1 6162636465666731\nEXPORT_KEY --cache-nonce=unknown 81594C58EF1286E89015A30A5CC2072D343B3307\nEXPORT_KEY --cache-nonce=wrong 81594C58EF1286E89015A30A5CC2072D343B3307\n",
        answered: "D wraps a key 2415\nOK\nOK\nOK\nD %EE%8Fr%EDi=*?em%E4%D7%AFB;%B8G%D7%AC)%8B%85%D7%E14%CB%F3l&%D8GQ%FBcFg%BF%84%BFN%95%80%8D_.%AB%92%E0\nOK\nD %EE%8Fr%EDi=*?em%E4%D7%AFB;%B8G%D7%AC)%8B%85%D7%E14%CB%F3l&%D8GQ%FBcFg%BF%84%BFN%95%80%8D_.%AB%92%E0\nOK\n",
        dice: b"wraps a key 2415",
        ..KEY_STAYS
    },
    // And to a prompt where nothing is. What is typed is kept for the key, and not under the nonce.
    Row {
        sent: "KEYWRAP_KEY --export\nPRESET_PASSPHRASE wrong -1 61\nEXPORT_KEY --cache-nonce=wrong 81594C58EF1286E89015A30A5CC2072D343B3307\nKEYINFO 81594C58EF1286E89015A30A5CC2072D343B3307\nEXPORT_KEY --cache-nonce=unknown 81594C58EF1286E89015A30A5CC2072D343B3307\nGET_PASSPHRASE --no-ask wrong\nGET_PASSPHRASE --no-ask unknown\n",
        answered: "D wraps a key 2415\nOK\nOK\nD %EE%8Fr%EDi=*?em%E4%D7%AFB;%B8G%D7%AC)%8B%85%D7%E14%CB%F3l&%D8GQ%FBcFg%BF%84%BFN%95%80%8D_.%AB%92%E0\nOK\nS KEYINFO 81594C58EF1286E89015A30A5CC2072D343B3307 D - - 1 P - - -\nOK\nD %EE%8Fr%EDi=*?em%E4%D7%AFB;%B8G%D7%AC)%8B%85%D7%E14%CB%F3l&%D8GQ%FBcFg%BF%84%BFN%95%80%8D_.%AB%92%E0\nOK\nOK 61\nERR 67108922 No data <GPG Agent>\n",
        children: &[ASKED],
        dice: b"wraps a key 2415",
        ..KEY_STAYS
    },
];

/// Keys come in: what is sent and answered, with the key files before and behind it.
pub(crate) const IMPORTS: &[Row] = &[
    // A key comes in and is protected by a new passphrase, which is cached under the key and under
    // the nonce. By that its file is written anew, and opens by the same.
    Row {
        sent: "OPTION s2k-count=65536\nKEYWRAP_KEY --import\nIMPORT_KEY\nD %EE%8F%72%ED%69%3D%2A%3F%65%6D%E4%D7%AF%42%3B%B8%47%D7%AC%29%8B%85%D7%E1%34%CB%F3%6C%26%D8%47%51%FB%63%46%67%BF%84%BF%4E%95%80%8D%5F%2E%AB%92%E0\nEND\nKEYINFO 81594C58EF1286E89015A30A5CC2072D343B3307\nPASSWD --cache-nonce=A0A1A2A3A4A5A6A7A8A9AAAB --passwd-nonce=A0A1A2A3A4A5A6A7A8A9AAAB 81594C58EF1286E89015A30A5CC2072D343B3307\nPASSWD --verify 81594C58EF1286E89015A30A5CC2072D343B3307\nIMPORT_KEY\nD %EE%8F%72%ED%69%3D%2A%3F%65%6D%E4%D7%AF%42%3B%B8%47%D7%AC%29%8B%85%D7%E1%34%CB%F3%6C%26%D8%47%51%FB%63%46%67%BF%84%BF%4E%95%80%8D%5F%2E%AB%92%E0\nEND\n",
        answered: "OK\nD wraps a key 2415\nOK\nS INQUIRE_MAXLEN 65544\nINQUIRE KEYDATA\nS CACHE_NONCE A0A1A2A3A4A5A6A7A8A9AAAB\nOK\nS KEYINFO 81594C58EF1286E89015A30A5CC2072D343B3307 D - - 1 P - - -\nOK\nOK\nOK\nS INQUIRE_MAXLEN 65544\nINQUIRE KEYDATA\nERR 67141667 File exists <GPG Agent>\n",
        files_after: Some(&[(GRIP, IN_LATER)]),
        children: &[TWICE, ASKED],
        dice: b"wraps a key 2415 !\"#$%&'()*+,-./0123\xa0\xa1\xa2\xa3\xa4\xa5\xa6\xa7\xa8\xa9\xaa\xab'&%$#\"! 3210/.-,+*)(",
        ..KEYS
    },
    // By a nonce nobody is asked, and a file that is there is replaced where that is wanted.
    Row {
        sent: "OPTION s2k-count=65536\nKEYWRAP_KEY --import\nIMPORT_KEY\nD %EE%8F%72%ED%69%3D%2A%3F%65%6D%E4%D7%AF%42%3B%B8%47%D7%AC%29%8B%85%D7%E1%34%CB%F3%6C%26%D8%47%51%FB%63%46%67%BF%84%BF%4E%95%80%8D%5F%2E%AB%92%E0\nEND\nIMPORT_KEY --force A0A1A2A3A4A5A6A7A8A9AAAB\nD %EE%8F%72%ED%69%3D%2A%3F%65%6D%E4%D7%AF%42%3B%B8%47%D7%AC%29%8B%85%D7%E1%34%CB%F3%6C%26%D8%47%51%FB%63%46%67%BF%84%BF%4E%95%80%8D%5F%2E%AB%92%E0\nEND\nIMPORT_KEY --force other\nD %EE%8F%72%ED%69%3D%2A%3F%65%6D%E4%D7%AF%42%3B%B8%47%D7%AC%29%8B%85%D7%E1%34%CB%F3%6C%26%D8%47%51%FB%63%46%67%BF%84%BF%4E%95%80%8D%5F%2E%AB%92%E0\nEND\n",
        answered: "OK\nD wraps a key 2415\nOK\nS INQUIRE_MAXLEN 65544\nINQUIRE KEYDATA\nS CACHE_NONCE A0A1A2A3A4A5A6A7A8A9AAAB\nOK\nS INQUIRE_MAXLEN 65544\nINQUIRE KEYDATA\nS CACHE_NONCE ACADAEAFB0B1B2B3B4B5B6B7\nOK\nS INQUIRE_MAXLEN 65544\nINQUIRE KEYDATA\nERR 83886179 Operation cancelled <Pinentry>\n",
        files_after: Some(&[(GRIP, IN_AGAIN)]),
        children: &[TWICE, (NEW_PROMPT, "ERR 83886179\n", "GETPIN\nBYE\n")],
        dice: b"wraps a key 2415 !\"#$%&'()*+,-./0123\xa0\xa1\xa2\xa3\xa4\xa5\xa6\xa7\xa8\xa9\xaa\xab'&%$#\"! ()*+,-./0123\xac\xad\xae\xaf\xb0\xb1\xb2\xb3\xb4\xb5\xb6\xb7",
        ..KEYS
    },
    // A passphrase that is too weak fails its try.
    Row {
        sent: "OPTION s2k-count=65536\nKEYWRAP_KEY --import\nIMPORT_KEY\nD %EE%8F%72%ED%69%3D%2A%3F%65%6D%E4%D7%AF%42%3B%B8%47%D7%AC%29%8B%85%D7%E1%34%CB%F3%6C%26%D8%47%51%FB%63%46%67%BF%84%BF%4E%95%80%8D%5F%2E%AB%92%E0\nEND\n",
        answered: "OK\nD wraps a key 2415\nOK\nS INQUIRE_MAXLEN 65544\nINQUIRE KEYDATA\nS CACHE_NONCE A0A1A2A3A4A5A6A7A8A9AAAB\nOK\n",
        children: &[(
            NEW_PROMPT,
            "D abcdefgh\nOK\nOK\nD abcdefg1\nOK\nOK\nD abcdefg1\nOK\n",
            "GETPIN\nSETERROR This passphrase is too weak (try 2 of 3)\nGETPIN\nSETERROR Please repeat the passphrase\nGETPIN\nBYE\n",
        )],
        ..KEY_COMES_IN
    },
    // What comes in has to be a wrapped clear key.
    Row {
        sent: "IMPORT_KEY\nKEYWRAP_KEY --import\nIMPORT_KEY aaaaaaaaaaaaaaaaaaaaaaaaaaaaaaaaaaaaaaaaaaaaaaaaaaa\nIMPORT_KEY\nD %EE%8F%72%ED%69%3D%2A%3F%65%6D%E4%D7%AF%42%3B%B8%47%D7%AC%29%8B%85%D7%E1%34%CB%F3%6C%26%D8%47%51%FB%63%46%67%BF%84%BF%4E%95%80%8D%5F%2E%AB%92%78\nEND\nIMPORT_KEY\nD a\nEND\nIMPORT_KEY\nD %0A%28%EE%6A%55%14%1D%33%CC%E4%F7%62%27%88%72%F9%15%4F%91%EC%4E%05%32%3C%08%23%10%2E%46%7C%2B%85%A3%80%0E%5E%E5%45%B1%A7%1A%AB%00%6A%49%CF%F4%BB\nEND\nIMPORT_KEY\nD %73%D3%BF%90%9A%D3%7D%C0%2C%E6%B7%08%DA%4D%43%13%7D%64%01%33%A6%8E%35%77%86%A4%F0%15%CE%6E%EE%04%55%5D%07%34%83%25%39%DC%29%80%C3%2B%E9%56%3A%18%7B%97%97%03%6B%64%43%46\nEND\nIMPORT_KEY\nD %D3%D6%A4%AD%15%D0%12%25%79%93%32%F9%6D%DA%37%15%3B%9E%41%D0%03%6A%5C%AC%C4%98%3D%1E%4E%D5%BD%E5%4F%65%87%83%DA%3E%53%2F%2D%55%84%B5%39%C4%14%C5%B8%34%5B%C8%BE%57%1A%50%39%FC%B5%7C%6C%CD%14%31%F1%55%88%A2%BB%2B%08%CF%0B%8F%8B%E1%50%DE%7E%F6%86%6C%50%89%54%BE%B6%5F%1D%6E%4B%53%D5%B2%AF%70%9F%CA%80%D0%6B%A9%FA%D9%62%C8%B1%B3%98%67%6D%B9%AE%86%49%4F%AC%67%09%AD%FF%EC%EF%34%7C%03%2C%27%10%6F%DF%8F%A1%98%B6%8A%6E%A7%E4%E3%B0%0C%8C%E0%75%91%7B%43%CF%4E%71%9E%CB%36%D6%79%D3%75%0B%49%88%8D%77%F7%E8%B6%E3%51%87%5A%7F%5A%F0%A6%38%25%BF%70%B4%2B%C2%C3%C2%7D%A4%EC%D6%EB%16%AE%FF%74%44%4D%A5%52%7B%58%B4%00\nEND\nIMPORT_KEY\nCAN\nIMPORT_KEY\nNOP\n",
        answered: "ERR 67109144 IPC parameter error <GPG Agent>\nD wraps a key 2415\nOK\nERR 67109144 IPC parameter error <GPG Agent>\nS INQUIRE_MAXLEN 65544\nINQUIRE KEYDATA\nERR 67108874 Checksum error <GPG Agent>\nS INQUIRE_MAXLEN 65544\nINQUIRE KEYDATA\nERR 67108874 Checksum error <GPG Agent>\nS INQUIRE_MAXLEN 65544\nINQUIRE KEYDATA\nERR 67108947 Invalid S-expression <GPG Agent>\nS INQUIRE_MAXLEN 65544\nINQUIRE KEYDATA\nERR 67108947 Invalid S-expression <GPG Agent>\nS INQUIRE_MAXLEN 65544\nINQUIRE KEYDATA\nERR 67108871 Bad secret key <GPG Agent>\nS INQUIRE_MAXLEN 65544\nINQUIRE KEYDATA\nERR 67108963 Operation cancelled <GPG Agent>\nS INQUIRE_MAXLEN 65544\nINQUIRE KEYDATA\nERR 67109138 Unexpected IPC command <GPG Agent>\n",
        files_after: Some(&[]),
        dice: b"wraps a key 2415",
        ..KEYS
    },
    // Without bytes for a salt no file is written, and nothing is kept.
    Row {
        sent: "OPTION s2k-count=65536\nKEYWRAP_KEY --import\nIMPORT_KEY\nD %EE%8F%72%ED%69%3D%2A%3F%65%6D%E4%D7%AF%42%3B%B8%47%D7%AC%29%8B%85%D7%E1%34%CB%F3%6C%26%D8%47%51%FB%63%46%67%BF%84%BF%4E%95%80%8D%5F%2E%AB%92%E0\nEND\nHAVEKEY 81594C58EF1286E89015A30A5CC2072D343B3307\nGETINFO version\n",
        answered: "OK\nD wraps a key 2415\nOK\nS INQUIRE_MAXLEN 65544\nINQUIRE KEYDATA\nERR 67108865 General error <GPG Agent>\nERR 67108881 No secret key <GPG Agent>\nD 2.4.0\nOK\n",
        files_after: Some(&[]),
        children: &[TWICE],
        dice: b"wraps a key 2415",
        ..KEYS
    },
    // A file that can't be written: General error, the nonce stays, and the key's passphrase isn't
    // kept.
    Row {
        sent: "OPTION s2k-count=65536\nKEYWRAP_KEY --import\nIMPORT_KEY\nD %EE%8F%72%ED%69%3D%2A%3F%65%6D%E4%D7%AF%42%3B%B8%47%D7%AC%29%8B%85%D7%E1%34%CB%F3%6C%26%D8%47%51%FB%63%46%67%BF%84%BF%4E%95%80%8D%5F%2E%AB%92%E0\nEND\nIMPORT_KEY A0A1A2A3A4A5A6A7A8A9AAAB\nD %EE%8F%72%ED%69%3D%2A%3F%65%6D%E4%D7%AF%42%3B%B8%47%D7%AC%29%8B%85%D7%E1%34%CB%F3%6C%26%D8%47%51%FB%63%46%67%BF%84%BF%4E%95%80%8D%5F%2E%AB%92%E0\nEND\n",
        answered: "OK\nD wraps a key 2415\nOK\nS INQUIRE_MAXLEN 65544\nINQUIRE KEYDATA\nERR 67108865 General error <GPG Agent>\nS INQUIRE_MAXLEN 65544\nINQUIRE KEYDATA\nS CACHE_NONCE ABAAA9A8A7A6A5A4A3A2A1A0\nOK\n",
        files_after: Some(&[(GRIP, IN_LATER)]),
        children: &[TWICE],
        dice: b"wraps a key 2415 !\"#$%&'()*+,-./0123\xa0\xa1\xa2\xa3\xa4\xa5\xa6\xa7\xa8\xa9\xaa\xab'&%$#\"! 3210/.-,+*)(\xab\xaa\xa9\xa8\xa7\xa6\xa5\xa4\xa3\xa2\xa1\xa0",
        key_faults: &[1],
        ..KEYS
    },
];

/// Passphrases are changed: what is sent and answered, with the key files before and behind it.
pub(crate) const CHANGES: &[Row] = &[
    // The passphrase is changed, and the file is written anew by OCB. The new one opens it.
    Row {
        sent: "OPTION s2k-count=65536\nPASSWD 81594C58EF1286E89015A30A5CC2072D343B3307\nPASSWD --verify 81594C58EF1286E89015A30A5CC2072D343B3307\nHAVEKEY 81594C58EF1286E89015A30A5CC2072D343B3307\nDELETE_KEY 81594C58EF1286E89015A30A5CC2072D343B3307\nPASSWD --verify 81594C58EF1286E89015A30A5CC2072D343B3307\n",
        answered: "OK\nOK\nOK\nOK\nERR 83886194 Not confirmed <Pinentry>\nERR 67108875 Bad passphrase <GPG Agent>\n",
        children: &[
            ASKED,
            NEXT_TWICE,
            VERIFIED,
            KEPT,
            (
                OLD_PROMPT,
                "D abcdefg1\nOK\nOK\nD abcdefg1\nOK\nOK\nD abcdefg1\nOK\n",
                "GETPIN\nSETERROR Bad passphrase (try 2 of 3)\nGETPIN\nSETERROR Bad passphrase (try 3 of 3)\nGETPIN\nBYE\n",
            ),
        ],
        ..KEY_CHANGES
    },
    // So is the file of a key that came in, whose passphrase is cached. The user verifies the new
    // one, and doesn't let the key go.
    Row {
        sent: "OPTION s2k-count=65536\nPRESET_PASSPHRASE 81594C58EF1286E89015A30A5CC2072D343B3307 -1 6162636465666731\nPASSWD 81594C58EF1286E89015A30A5CC2072D343B3307\nPASSWD --verify 81594C58EF1286E89015A30A5CC2072D343B3307\nHAVEKEY 81594C58EF1286E89015A30A5CC2072D343B3307\nDELETE_KEY 81594C58EF1286E89015A30A5CC2072D343B3307\nHAVEKEY 81594C58EF1286E89015A30A5CC2072D343B3307\n",
        answered: "OK\nOK\nOK\nOK\nOK\nERR 83886194 Not confirmed <Pinentry>\nOK\n",
        files: &[(GRIP, BY_OCB)],
        files_after: Some(&[(GRIP, CHANGED_LATER)]),
        children: &[NEXT_TWICE, VERIFIED, KEPT],
        dice: b"'&%$#\"! 3210/.-,+*)(",
        ..KEYS
    },
    // A nonce gives the new passphrase, behind a prompt for the old one. An unknown nonce gives
    // none.
    Row {
        sent: "OPTION s2k-count=65536\nPRESET_PASSPHRASE new -1 68696a6b6c6d6e32\nPASSWD --passwd-nonce=new 81594C58EF1286E89015A30A5CC2072D343B3307\nKEYINFO 81594C58EF1286E89015A30A5CC2072D343B3307\nPASSWD --passwd-nonce=unknown 81594C58EF1286E89015A30A5CC2072D343B3307\nPASSWD --verify 81594C58EF1286E89015A30A5CC2072D343B3307\n",
        answered: "OK\nOK\nOK\nS KEYINFO 81594C58EF1286E89015A30A5CC2072D343B3307 D - - 1 P - - -\nOK\nOK\nOK\n",
        files: &[(GRIP, BY_CBC)],
        files_after: Some(&[(GRIP, IN_LATER)]),
        children: &[ASKED, TWICE, ASKED],
        dice: b" !\"#$%&'()*+,-./0123'&%$#\"! 3210/.-,+*)(",
        ..KEYS
    },
    // The old passphrase is cached, and the new one afterwards.
    Row {
        sent: "OPTION s2k-count=65536\nPRESET_PASSPHRASE 81594C58EF1286E89015A30A5CC2072D343B3307 -1 6162636465666731\nPASSWD 81594C58EF1286E89015A30A5CC2072D343B3307\nKEYWRAP_KEY --export\nEXPORT_KEY 81594C58EF1286E89015A30A5CC2072D343B3307\n",
        answered: "OK\nOK\nOK\nD wraps a key 2415\nOK\nD %EE%8Fr%EDi=*?em%E4%D7%AFB;%B8G%D7%AC)%8B%85%D7%E14%CB%F3l&%D8GQ%FBcFg%BF%84%BFN%95%80%8D_.%AB%92%E0\nOK\n",
        children: &[NEXT_TWICE],
        dice: b" !\"#$%&'()*+,-./0123wraps a key 2415",
        ..KEY_CHANGES
    },
    // A clear key gets a passphrase. Without one the file stays.
    Row {
        sent: "OPTION s2k-count=65536\nPASSWD --verify 81594C58EF1286E89015A30A5CC2072D343B3307\nPASSWD 81594C58EF1286E89015A30A5CC2072D343B3307\nPASSWD 81594C58EF1286E89015A30A5CC2072D343B3307\n",
        answered: "OK\nOK\nERR 83886142 Timeout <Pinentry>\nOK\n",
        files: &[(GRIP, CLEAR)],
        files_after: Some(&[(GRIP, CHANGED)]),
        children: &[(NEW_PROMPT, "ERR 62\n", "GETPIN\nBYE\n"), NEXT_TWICE],
        dice: b" !\"#$%&'()*+,-./0123",
        ..KEYS
    },
    // The client gives both; an empty new one is none.
    Row {
        sent: "OPTION s2k-count=65536\nOPTION pinentry-mode=loopback\nPASSWD 81594C58EF1286E89015A30A5CC2072D343B3307\nD abcdefg1\nEND\nEND\nPASSWD 81594C58EF1286E89015A30A5CC2072D343B3307\nD hijklmn2\nEND\nKEYWRAP_KEY --export\nEXPORT_KEY 81594C58EF1286E89015A30A5CC2072D343B3307\n",
        answered: "OK\nOK\nS INQUIRE_MAXLEN 255\nINQUIRE PASSPHRASE\nS INQUIRE_MAXLEN 255\nINQUIRE NEW_PASSPHRASE\nERR 67108875 Bad passphrase <GPG Agent>\nS INQUIRE_MAXLEN 255\nINQUIRE NEW_PASSPHRASE\nOK\nD wraps a key 2415\nOK\nD %EE%8Fr%EDi=*?em%E4%D7%AFB;%B8G%D7%AC)%8B%85%D7%E14%CB%F3l&%D8GQ%FBcFg%BF%84%BFN%95%80%8D_.%AB%92%E0\nOK\n",
        dice: b" !\"#$%&'()*+,-./0123wraps a key 2415",
        ..KEY_CHANGES
    },
    // Where the new file can't be written, the old one stays, and the new passphrase isn't kept.
    Row {
        sent: "OPTION s2k-count=65536\nPASSWD 81594C58EF1286E89015A30A5CC2072D343B3307\nKEYINFO 81594C58EF1286E89015A30A5CC2072D343B3307\n",
        answered: "OK\nERR 67108865 General error <GPG Agent>\nS KEYINFO 81594C58EF1286E89015A30A5CC2072D343B3307 D - - - P - - -\nOK\n",
        children: &[ASKED, NEXT_TWICE],
        dice: b" !\"#$%&'()*+,-./0123",
        key_faults: &[1],
        ..KEY_STAYS
    },
];

/// Keys that can't be read, that the user lets go, and that aren't canonical: what is sent and
/// answered, with the key files before and behind it.
pub(crate) const OTHERS: &[Row] = &[
    // Keys that can't be read.
    Row {
        sent: "HAVEKEY 0000000000000000000000000000000000000001 81594C58EF1286E89015A30A5CC2072D343B3307\nKEYINFO 81594C58EF1286E89015A30A5CC2072D343B3307\nKEYINFO --list\nDELETE_KEY --force 81594C58EF1286E89015A30A5CC2072D343B3307\nKEYINFO 81594C58EF1286E89015A30A5CC2072D343B3307\n",
        answered: "ERR 67108865 General error <GPG Agent>\nERR 67108865 General error <GPG Agent>\nERR 67108865 General error <GPG Agent>\nERR 67108865 General error <GPG Agent>\nS KEYINFO 81594C58EF1286E89015A30A5CC2072D343B3307 D - - - P - - -\nOK\n",
        key_faults: &[1, 2, 3, 4],
        ..KEY_STAYS
    },
    // Keys that can't be listed, and then can.
    Row {
        sent: "HAVEKEY --list=1000\nHAVEKEY --list=1000\n",
        answered: "ERR 67108865 General error <GPG Agent>\nD %81YLX%EF\x12%86%E8%90\x15%A3%0A\\%C2\x07-4;3\x07\nOK\n",
        key_faults: &[0],
        ..KEY_STAYS
    },
    // A nonce has 1 to 50 bytes, and DELETE_KEY no stubs.
    Row {
        sent: "PASSWD --cache-nonce= 81594C58EF1286E89015A30A5CC2072D343B3307\nPASSWD --passwd-nonce=aaaaaaaaaaaaaaaaaaaaaaaaaaaaaaaaaaaaaaaaaaaaaaaaaaa 81594C58EF1286E89015A30A5CC2072D343B3307\nEXPORT_KEY --cache-nonce= 81594C58EF1286E89015A30A5CC2072D343B3307\nDELETE_KEY --stub-only 81594C58EF1286E89015A30A5CC2072D343B3307\nDELETE_KEY\n",
        answered: "ERR 67109144 IPC parameter error <GPG Agent>\nERR 67109144 IPC parameter error <GPG Agent>\nERR 67109144 IPC parameter error <GPG Agent>\nERR 67108924 Not supported <GPG Agent>\nERR 67109144 IPC parameter error <GPG Agent>\n",
        ..KEY_STAYS
    },
    // The user agrees that a key is deleted. What was cached for it is cleared.
    Row {
        sent: "PRESET_PASSPHRASE 81594C58EF1286E89015A30A5CC2072D343B3307 -1 61\nDELETE_KEY 81594C58EF1286E89015A30A5CC2072D343B3307\nGET_PASSPHRASE --no-ask 81594C58EF1286E89015A30A5CC2072D343B3307\n",
        answered: "OK\nOK\nERR 67108922 No data <GPG Agent>\n",
        children: &[AGREED],
        ..KEY_GOES
    },
    // The client's input ends while it is told of a prompt.
    Row {
        sent: "OPTION allow-pinentry-notify\nDELETE_KEY 81594C58EF1286E89015A30A5CC2072D343B3307\n",
        answered: "OK\nINQUIRE PINENTRY_LAUNCHED 9\n",
        children: &[UNASKED],
        ..KEY_STAYS
    },
    // A key in GnuPG's extended format.
    Row {
        sent: "OPTION s2k-count=65536\nKEYINFO 81594C58EF1286E89015A30A5CC2072D343B3307\nKEYWRAP_KEY --export\nEXPORT_KEY 81594C58EF1286E89015A30A5CC2072D343B3307\nPASSWD 81594C58EF1286E89015A30A5CC2072D343B3307\nKEYINFO --list\nEXPORT_KEY 81594C58EF1286E89015A30A5CC2072D343B3307\n",
        answered: "OK\nS KEYINFO 81594C58EF1286E89015A30A5CC2072D343B3307 D - - - C - - -\nOK\nD wraps a key 2415\nOK\nD %EE%8Fr%EDi=*?em%E4%D7%AFB;%B8G%D7%AC)%8B%85%D7%E14%CB%F3l&%D8GQ%FBcFg%BF%84%BFN%95%80%8D_.%AB%92%E0\nOK\nOK\nS KEYINFO 81594C58EF1286E89015A30A5CC2072D343B3307 D - - 1 P - - -\nOK\nD %EE%8Fr%EDi=*?em%E4%D7%AFB;%B8G%D7%AC)%8B%85%D7%E14%CB%F3l&%D8GQ%FBcFg%BF%84%BFN%95%80%8D_.%AB%92%E0\nOK\n",
        files: &[(GRIP, EXTENDED)],
        files_after: Some(&[(GRIP, EXTENDED_CHANGED)]),
        children: &[NEXT_TWICE],
        dice: b"wraps a key 2415 !\"#$%&'()*+,-./0123",
        ..KEYS
    },
    // Without its key it is none.
    Row {
        sent: "KEYWRAP_KEY --export\nEXPORT_KEY 81594C58EF1286E89015A30A5CC2072D343B3307\nPASSWD 81594C58EF1286E89015A30A5CC2072D343B3307\nPASSWD --verify 81594C58EF1286E89015A30A5CC2072D343B3307\nHAVEKEY 81594C58EF1286E89015A30A5CC2072D343B3307\nDELETE_KEY --force 81594C58EF1286E89015A30A5CC2072D343B3307\n",
        answered: "D wraps a key 2415\nOK\nERR 67108947 Invalid S-expression <GPG Agent>\nERR 67108947 Invalid S-expression <GPG Agent>\nERR 67108947 Invalid S-expression <GPG Agent>\nOK\nOK\n",
        files: &[(GRIP, WITHOUT_KEY)],
        files_after: Some(&[]),
        dice: b"wraps a key 2415",
        ..KEYS
    },
];
