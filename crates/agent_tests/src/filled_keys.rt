//! Sessions on keys about the limits of their lengths: what `large_keys.rt` serves. Begin with
//! `COMING`. Plain data, made by tools/key-sessions.

use crate::key_children::{
    ASKED, LONGER_ASKED, LONGEST_NEW_PROMPT, LONGEST_OLD_PROMPT, NEXT_TWICE,
};
use crate::large_keys::{Filled, Large};
use crate::rows::{KEYS, Row};

/// The longest key, protected.
const LONGEST_FILE: Filled = Filled {
    front: b"(21:protected-private-key(3:ecc(1:q64958:",
    letter: b'f',
    times: 64958,
    behind: b")(9:protected20:openpgp-s2k3-ocb-aes((4:sha18: !\"#$%&'5:65536)12:()*+,-./0123)28:\x9d=\xe3\xd4\x88\x93\x844\xe0q\x15\x0b\xf6\x8a\xb4\xc2sI\xaa\x0b@\x84bc\xad\x1e\xd0\xaf)))",
};

/// A key that is longer by one byte, protected.
const LONGER_FILE: Filled = Filled {
    front: b"(21:protected-private-key(3:ecc(1:q64959:",
    letter: b'f',
    times: 64959,
    behind: b")(9:protected20:openpgp-s2k3-ocb-aes((4:sha18: !\"#$%&'5:65536)12:()*+,-./0123)28:\x9d=\xe3\xd4\x88\x93\x844\xe0q\x15\x0b\xbe\x96g\x99\xee`\xaf\x1cf~\xf3\xf3\xa1\xca/\x05)))",
};

/// That key without a passphrase.
const LONGER_CLEAR: Filled = Filled {
    front: b"(11:private-key(3:ecc(1:q64959:",
    letter: b'f',
    times: 64959,
    behind: b")(1:d1:D)))",
};

/// An extended file that would be too long with a new passphrase.
const LONGER_EXTENDED: Filled = Filled {
    front: b"# ",
    letter: b'f',
    times: 65322,
    behind: b"\nCreated: x\nKey: (protected-private-key (ecc (q Q) (protected openpgp-s2k3-ocb-aes ((sha1 saltsalt #3635353336#) #28292A2B2C2D2E2F30313233#) #81253B5097E3B7740C06AC77CBE4B6F5A70892F6FB428F1E083D9643#)))\n",
};

/// Keys come in: what is sent and answered, with the key's file before and behind it.
pub(crate) const COMING: &[Large] = &[
    // A private list of 65,000 bytes.
    Large {
        row: Row {
            sent: "OPTION s2k-count=65536\nKEYWRAP_KEY --import\nIMPORT_KEY\n@END\nKEYINFO C931AB68DBF4D96547E9A23EED267608111AACFE\n",
            answered: "OK\nD wraps a key 2415\nOK\nS INQUIRE_MAXLEN 65544\nINQUIRE KEYDATA\nS CACHE_NONCE A0A1A2A3A4A5A6A7A8A9AAAB\nOK\nS KEYINFO C931AB68DBF4D96547E9A23EED267608111AACFE D - - 1 P - - -\nOK\n",
            children: &[(
                LONGEST_NEW_PROMPT,
                "D abcdefg1\nOK\nOK\nD abcdefg1\nOK\n",
                "GETPIN\nSETERROR Please repeat the passphrase\nGETPIN\nBYE\n",
            )],
            dice: b"wraps a key 2415 !\"#$%&'()*+,-./0123\xa0\xa1\xa2\xa3\xa4\xa5\xa6\xa7\xa8\xa9\xaa\xab",
            ..KEYS
        },
        grip: "C931AB68DBF4D96547E9A23EED267608111AACFE",
        wrapped: Some(Filled {
            front: b"(11:private-key(3:ecc(1:q64958:",
            letter: b'f',
            times: 64958,
            behind: b")(1:d1:D)))",
        }),
        before: None,
        after: Some(LONGEST_FILE),
    },
    // One more is too many: nobody is asked, and no bytes are drawn.
    Large {
        row: Row {
            sent: "OPTION s2k-count=65536\nKEYWRAP_KEY --import\nIMPORT_KEY\n@END\nHAVEKEY 991B4939D1B18937C2DEB2B1F0B5F3DA4D0862F3\nKEYWRAP_KEY --export\n",
            answered: "OK\nD wraps a key 2415\nOK\nS INQUIRE_MAXLEN 65544\nINQUIRE KEYDATA\nERR 67108871 Bad secret key <GPG Agent>\nERR 67108881 No secret key <GPG Agent>\nD defghijklmnopqrs\nOK\n",
            dice: b"wraps a key 2415defghijklmnopqrs",
            ..KEYS
        },
        grip: "991B4939D1B18937C2DEB2B1F0B5F3DA4D0862F3",
        wrapped: Some(LONGER_CLEAR),
        before: None,
        after: None,
    },
];

/// Passphrases are changed: what is sent and answered, with the key's file before and behind it.
pub(crate) const CHANGED: &[Large] = &[
    // A private list of 65,000 bytes.
    Large {
        row: Row {
            sent: "OPTION s2k-count=65536\nPASSWD C931AB68DBF4D96547E9A23EED267608111AACFE\nKEYINFO C931AB68DBF4D96547E9A23EED267608111AACFE\n",
            answered: "OK\nOK\nS KEYINFO C931AB68DBF4D96547E9A23EED267608111AACFE D - - 1 P - - -\nOK\n",
            children: &[
                (LONGEST_OLD_PROMPT, "D abcdefg1\nOK\n", "GETPIN\nBYE\n"),
                (
                    LONGEST_NEW_PROMPT,
                    "D hijklmn2\nOK\nOK\nD hijklmn2\nOK\n",
                    "GETPIN\nSETERROR Please repeat the passphrase\nGETPIN\nBYE\n",
                ),
            ],
            dice: b"'&%$#\"! 3210/.-,+*)(",
            ..KEYS
        },
        grip: "C931AB68DBF4D96547E9A23EED267608111AACFE",
        wrapped: None,
        before: Some(LONGEST_FILE),
        after: Some(Filled {
            front: b"(21:protected-private-key(3:ecc(1:q64958:",
            letter: b'f',
            times: 64958,
            behind: b")(9:protected20:openpgp-s2k3-ocb-aes((4:sha18:'&%$#\"! 5:65536)12:3210/.-,+*)()28:\xefn\n\x12\xd4\xac\x9f\xb4\xa3\x03\xf1\n=\x91\xc8\xe5s\xfe\xc8\x91]\x91\xa6\xaa>ue<)))",
        }),
    },
    // With one more the user isn't asked for a new passphrase, and the old one isn't kept. It is
    // verified nevertheless.
    Large {
        row: Row {
            sent: "OPTION s2k-count=65536\nPASSWD 991B4939D1B18937C2DEB2B1F0B5F3DA4D0862F3\nKEYINFO 991B4939D1B18937C2DEB2B1F0B5F3DA4D0862F3\nPASSWD --verify 991B4939D1B18937C2DEB2B1F0B5F3DA4D0862F3\nPASSWD 991B4939D1B18937C2DEB2B1F0B5F3DA4D0862F3\nKEYINFO 991B4939D1B18937C2DEB2B1F0B5F3DA4D0862F3\nKEYWRAP_KEY --export\n",
            answered: "OK\nERR 67108871 Bad secret key <GPG Agent>\nS KEYINFO 991B4939D1B18937C2DEB2B1F0B5F3DA4D0862F3 D - - - P - - -\nOK\nOK\nERR 67108871 Bad secret key <GPG Agent>\nS KEYINFO 991B4939D1B18937C2DEB2B1F0B5F3DA4D0862F3 D - - 1 P - - -\nOK\nD wraps a key 2415\nOK\n",
            children: &[LONGER_ASKED, LONGER_ASKED],
            dice: b"wraps a key 2415",
            ..KEYS
        },
        grip: "991B4939D1B18937C2DEB2B1F0B5F3DA4D0862F3",
        wrapped: None,
        before: Some(LONGER_FILE),
        after: Some(LONGER_FILE),
    },
    // Nor for that of a clear key.
    Large {
        row: Row {
            sent: "OPTION s2k-count=65536\nPASSWD 991B4939D1B18937C2DEB2B1F0B5F3DA4D0862F3\nKEYINFO 991B4939D1B18937C2DEB2B1F0B5F3DA4D0862F3\n",
            answered: "OK\nERR 67108871 Bad secret key <GPG Agent>\nS KEYINFO 991B4939D1B18937C2DEB2B1F0B5F3DA4D0862F3 D - - - C - - -\nOK\n",
            ..KEYS
        },
        grip: "991B4939D1B18937C2DEB2B1F0B5F3DA4D0862F3",
        wrapped: None,
        before: Some(LONGER_CLEAR),
        after: Some(LONGER_CLEAR),
    },
    // An extended file of 65,536 bytes.
    Large {
        row: Row {
            sent: "OPTION s2k-count=65536\nPASSWD 81594C58EF1286E89015A30A5CC2072D343B3307\nKEYINFO 81594C58EF1286E89015A30A5CC2072D343B3307\n",
            answered: "OK\nOK\nS KEYINFO 81594C58EF1286E89015A30A5CC2072D343B3307 D - - 1 P - - -\nOK\n",
            children: &[ASKED, NEXT_TWICE],
            dice: b" !\"#$%&'()*+,-./0123",
            ..KEYS
        },
        grip: "81594C58EF1286E89015A30A5CC2072D343B3307",
        wrapped: None,
        before: Some(Filled {
            front: b"# ",
            letter: b'f',
            times: 65321,
            behind: b"\nCreated: x\nKey: (protected-private-key (ecc (q Q) (protected openpgp-s2k3-ocb-aes ((sha1 saltsalt #3635353336#) #28292A2B2C2D2E2F30313233#) #81253B5097E3B7740C06AC77CBE4B6F5A70892F6FB428F1E083D9643#)))\n",
        }),
        after: Some(Filled {
            front: b"# ",
            letter: b'f',
            times: 65321,
            behind: b"\nCreated: x\nKey: (protected-private-key (ecc (q Q) (protected openpgp-s2k3-ocb-aes ((sha1 #2021222324252627# #3635353336#) #28292A2B2C2D2E2F30313233#) #EDBBA27AF757CB33B4938FA7AF1215B2CCE273DD39E26E6B6E5753CC#)))\n",
        }),
    },
    // One that would have one more isn't written, and no passphrase is kept.
    Large {
        row: Row {
            sent: "OPTION s2k-count=65536\nPASSWD 81594C58EF1286E89015A30A5CC2072D343B3307\nKEYINFO 81594C58EF1286E89015A30A5CC2072D343B3307\nPASSWD --verify 81594C58EF1286E89015A30A5CC2072D343B3307\n",
            answered: "OK\nERR 67108871 Bad secret key <GPG Agent>\nS KEYINFO 81594C58EF1286E89015A30A5CC2072D343B3307 D - - - P - - -\nOK\nOK\n",
            children: &[ASKED, NEXT_TWICE, ASKED],
            dice: b" !\"#$%&'()*+,-./0123",
            ..KEYS
        },
        grip: "81594C58EF1286E89015A30A5CC2072D343B3307",
        wrapped: None,
        before: Some(LONGER_EXTENDED),
        after: Some(LONGER_EXTENDED),
    },
];
