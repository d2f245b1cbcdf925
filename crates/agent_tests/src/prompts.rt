//! Prompts from bytes to bytes: what the client is answered, and what each child is written. Plain
//! data, which `sessions.rt` serves. Begin with `PROMPTS`; openings that other rows share stand
//! before it.

/// How a prompt begins: what its child gives up to the question, and what that child is written.
pub(crate) type Opening = (&'static str, &'static str);

/// A prompt for a passphrase, with the usual texts, of a child with the number 9.
pub(crate) const PIN: Opening = (
    "OK Pleased to meet you\nD 9\nOK\nOK\nOK\nOK\n",
    "GETINFO pid\nSETKEYINFO --clear\nSETDESC Please enter the passphrase\nSETPROMPT Passphrase:\n",
);

pub(crate) const QUALITY: Opening = (
    "OK\n# a comment\nS STATUS x\nD 9\nOK\nERR 1\nOK\nOK\nOK\n",
    "GETINFO pid\nSETKEYINFO --clear\nSETDESC Please enter the passphrase\nSETPROMPT Passphrase:\nSETQUALITYBAR\n",
);

/// A prompt with texts of the client's.
const TEXTS: Opening = (
    "OK\nOK\nOK\nOK\nOK\n",
    "GETINFO pid\nSETKEYINFO --clear\nSETDESC Say%0Ait\nSETPROMPT PIN 100%25:\n",
);

pub(crate) const CONSENT: Opening = (
    "OK\nD 9\nOK\nOK\nOK\n",
    "GETINFO pid\nSETKEYINFO --clear\nSETDESC Really send\n",
);

const CONFIRM: Opening = (
    "OK\nD 9\nOK\nOK\nOK\n",
    "GETINFO pid\nSETKEYINFO --clear\nSETDESC Please confirm\n",
);

/// The session of gpg.
pub(crate) const AFTER_GPG: Opening = (
    "OK Pleased to meet you\nOK\nOK\nOK\nOK\nD 4711\nOK\nOK\nOK\nOK\n",
    "OPTION ttyname=/dev/pts/1\nOPTION ttytype=xterm\nOPTION lc-ctype=C.UTF-8\nOPTION lc-messages=C.UTF-8\n\
    GETINFO pid\nSETKEYINFO --clear\nSETDESC Enter passphrase%0AFor backup\nSETPROMPT Passphrase:\n",
);

/// How its prompt begins, what the child gives behind that, and what it is written behind that.
pub(crate) type Child = (Opening, &'static str, &'static str);

/// What the client sends, what it is answered behind the greeting, and the children. A text may
/// have repeated parts, as `{part*3}`.
pub(crate) const PROMPTS: [(&str, &str, &[Child]); 35] = [
    // As it is typed, with escapes, and of no bytes. It is kept.
    (
        "GET_PASSPHRASE id1 X X X\nGET_PASSPHRASE --no-ask --data id1\nGET_PASSPHRASE --data id1 X X X\n",
        "OK 70696E\nD pin\nOK\nD pin\nOK\n",
        &[(PIN, "D pi\nD n\nOK\n", "GETPIN\nBYE\n")],
    ),
    (
        "GET_PASSPHRASE --data id1 X X X\n",
        "D 100%25%0D%0A\nOK\n",
        &[(PIN, "D 100%25%0D%0A\nOK\n", "GETPIN\nBYE\n")],
    ),
    (
        "GET_PASSPHRASE --data id1 X X X\nGET_PASSPHRASE id1\n",
        "OK\nOK\n",
        &[(PIN, "OK\n", "GETPIN\nBYE\n")],
    ),
    // Under the id X nothing is kept.
    (
        "GET_PASSPHRASE X X X X\nGET_PASSPHRASE --no-ask X\nGET_PASSPHRASE X X X X\n",
        "OK 61\nERR 67108922 No data <GPG Agent>\nOK 62\n",
        &[
            (PIN, "D a\nOK\n", "GETPIN\nBYE\n"),
            (PIN, "D b\nOK\n", "GETPIN\nBYE\n"),
        ],
    ),
    // The seat is free behind a prompt that ends without a passphrase.
    (
        "GET_PASSPHRASE id1 X X X\nGET_PASSPHRASE --data id1 X X X\n",
        "ERR 83886179 Operation cancelled <Pinentry>\nD pin\nOK\n",
        &[
            (PIN, "ERR 83886179 cancelled\n", "GETPIN\nBYE\n"),
            (PIN, "D pin\nOK\n", "GETPIN\nBYE\n"),
        ],
    ),
    (
        "GET_PASSPHRASE id1 X X X\nGET_PASSPHRASE --data id1 X X X\n",
        "ERR 83886142 Timeout <Pinentry>\nD pin\nOK\n",
        &[
            (PIN, "ERR 62\n", "GETPIN\nBYE\n"),
            (PIN, "D pin\nOK\n", "GETPIN\nBYE\n"),
        ],
    ),
    (
        "GET_PASSPHRASE id1 X X X\nGET_PASSPHRASE id1 X X X\nGET_PASSPHRASE --data id1 X X X\n",
        "ERR 67108950 No pinentry <GPG Agent>\nERR 67108950 No pinentry <GPG Agent>\nD pin\nOK\n",
        &[
            (("HELLO\n", ""), "", ""),
            (PIN, "ERR 1\n", "GETPIN\n"),
            (PIN, "D pin\nOK\n", "GETPIN\nBYE\n"),
        ],
    ),
    // In other modes there is no prompt.
    (
        "OPTION pinentry-mode=error\nGET_PASSPHRASE id1 X X X\n",
        "OK\nERR 67108950 No pinentry <GPG Agent>\n",
        &[],
    ),
    (
        "OPTION pinentry-mode=cancel\nGET_PASSPHRASE id1 X X X\n",
        "OK\nERR 67108963 Operation cancelled <GPG Agent>\n",
        &[],
    ),
    // Weak, and differing from its repeat.
    (
        "GET_PASSPHRASE --check id1 X X X\nGET_PASSPHRASE --no-ask id1\n",
        "ERR 67108875 Bad passphrase <GPG Agent>\nERR 67108922 No data <GPG Agent>\n",
        &[(
            PIN,
            "D short 1\nOK\nOK\nD lettersonly\nOK\nOK\nOK\n",
            "GETPIN\nSETERROR This passphrase is too weak (try 2 of 3)\nGETPIN\nSETERROR This passphrase is too weak (try 3 of 3)\nGETPIN\nBYE\n",
        )],
    ),
    (
        "GET_PASSPHRASE --repeat --data id1 X X X\n",
        "D two\nOK\n",
        &[(
            PIN,
            "D one\nOK\nOK\nD two\nOK\nOK\nD two\nOK\nOK\nD two\nOK\n",
            "GETPIN\nSETERROR Please repeat the passphrase\nGETPIN\n\
            SETERROR Passphrases differ (try 2 of 3)\nGETPIN\nSETERROR Please repeat the passphrase\nGETPIN\nBYE\n",
        )],
    ),
    (
        "GET_PASSPHRASE --qualitybar id1 X X X\n",
        "OK 616263\n",
        &[(
            QUALITY,
            "INQUIRE QUALITY abc\nINQUIRE OTHER\nD abc\nOK\n",
            "GETPIN\nD 30\nEND\nCAN\nBYE\n",
        )],
    ),
    (
        "GET_PASSPHRASE id1 Not+%25that PIN+100%25: Say%0Ait\n",
        "OK 61\n",
        &[(
            TEXTS,
            "OK\nD a\nOK\n",
            "SETERROR Not %25that\nGETPIN\nBYE\n",
        )],
    ),
    (
        "RESET\nOPTION ttyname=/dev/pts/1\nOPTION ttytype=xterm\nOPTION lc-ctype=C.UTF-8\nOPTION lc-messages=C.UTF-8\n\
        GETINFO version\nOPTION allow-pinentry-notify\nOPTION agent-awareness=2.1.0\n\
        GET_PASSPHRASE --data --repeat=0 -- S1234 X X Enter+passphrase%0AFor+backup\nEND\nBYE\n",
        "OK\nOK\nOK\nOK\nOK\nD 2.4.0\nOK\nOK\nOK\nINQUIRE PINENTRY_LAUNCHED 4711\nD correct horse\nOK\nOK closing connection\n",
        &[(AFTER_GPG, "D correct horse\nOK\n", "GETPIN\nBYE\n")],
    ),
    // A typed passphrase has up to 255 bytes, and one that is too long is never kept.
    (
        "GET_PASSPHRASE id1 X X X\nGET_PASSPHRASE --no-ask id1\n",
        "OK {61*255}\nOK {61*255}\n",
        &[(PIN, "D {a*255}\nOK\n", "GETPIN\nBYE\n")],
    ),
    (
        "GET_PASSPHRASE id1 X X X\nGET_PASSPHRASE --no-ask id1\n",
        "ERR 67108950 No pinentry <GPG Agent>\nERR 67108922 No data <GPG Agent>\n",
        &[(PIN, "D {a*256}\nOK\n", "GETPIN\n")],
    ),
    // The client is told of a pinentry, and its answer decides.
    (
        "OPTION allow-pinentry-notify\nGET_PASSPHRASE id1 X X X\nNOP\nNOP\nGET_PASSPHRASE id1 X X X\nD seen\nend\n",
        "OK\nINQUIRE PINENTRY_LAUNCHED 9\nERR 67109138 Unexpected IPC command <GPG Agent>\nOK\nINQUIRE PINENTRY_LAUNCHED 9\nOK 61\n",
        &[(PIN, "", "BYE\n"), (PIN, "D a\nOK\n", "GETPIN\nBYE\n")],
    ),
    (
        "OPTION allow-pinentry-notify\nGET_CONFIRMATION Really+send\nCAN\nGET_CONFIRMATION Really+send\nEND\n",
        "OK\nINQUIRE PINENTRY_LAUNCHED 9\nERR 67108963 Operation cancelled <GPG Agent>\nINQUIRE PINENTRY_LAUNCHED 9\nOK\n",
        &[(CONSENT, "", "BYE\n"), (CONSENT, "OK\n", "CONFIRM\nBYE\n")],
    ),
    (
        "OPTION allow-pinentry-notify\nGET_PASSPHRASE id1 X X X\n",
        "OK\nINQUIRE PINENTRY_LAUNCHED 9\n",
        &[(PIN, "", "BYE\n")],
    ),
    (
        "OPTION allow-pinentry-notify\nGET_PASSPHRASE id1 X X X\nEND\n",
        "OK\nERR 67108950 No pinentry <GPG Agent>\nERR 67109139 Unknown IPC command <GPG Agent>\n",
        &[(("OK\nD x\nOK\n", "GETINFO pid\n"), "", "")],
    ),
    // A note has up to 1,000 bytes.
    (
        "OPTION allow-pinentry-notify\nGET_PASSPHRASE id1 X X X\nD {a*500}\nD {a*500}\nEND\n",
        "OK\nINQUIRE PINENTRY_LAUNCHED 9\nOK 61\n",
        &[(PIN, "D a\nOK\n", "GETPIN\nBYE\n")],
    ),
    (
        "OPTION allow-pinentry-notify\nGET_PASSPHRASE id1 X X X\nD {a*500}\nD {a*500}\nD a\nEND\n",
        "OK\nINQUIRE PINENTRY_LAUNCHED 9\nERR 67109137 Too much data for IPC layer <GPG Agent>\n",
        &[(PIN, "", "BYE\n")],
    ),
    // Consent.
    (
        "GET_CONFIRMATION Really+send\n",
        "OK\n",
        &[(CONSENT, "OK\n", "CONFIRM\nBYE\n")],
    ),
    (
        "GET_CONFIRMATION X further words\n",
        "OK\n",
        &[(CONFIRM, "OK\n", "CONFIRM\nBYE\n")],
    ),
    (
        "GET_CONFIRMATION Really+send\nGET_CONFIRMATION Really+send\n",
        "ERR 83886194 Not confirmed <Pinentry>\nOK\n",
        &[
            (CONSENT, "ERR 114\n", "CONFIRM\nBYE\n"),
            (CONSENT, "OK\n", "CONFIRM\nBYE\n"),
        ],
    ),
    (
        "GET_CONFIRMATION Really+send\nGET_CONFIRMATION Really+send\n",
        "ERR 83886179 Operation cancelled <Pinentry>\nERR 83886142 Timeout <Pinentry>\n",
        &[
            (CONSENT, "ERR 198\n", "CONFIRM\nBYE\n"),
            (CONSENT, "ERR 62\n", "CONFIRM\nBYE\n"),
        ],
    ),
    (
        "GET_CONFIRMATION Really+send\n",
        "ERR 67108950 No pinentry <GPG Agent>\n",
        &[(CONSENT, "D x\nOK\n", "CONFIRM\n")],
    ),
    (
        "OPTION pinentry-mode=cancel\nGET_CONFIRMATION X\n",
        "OK\nERR 67108963 Operation cancelled <GPG Agent>\n",
        &[],
    ),
    (
        "OPTION pinentry-mode=error\nGET_CONFIRMATION X\nOPTION pinentry-mode=loopback\nGET_CONFIRMATION X\n",
        "OK\nERR 67108950 No pinentry <GPG Agent>\nOK\nERR 67108950 No pinentry <GPG Agent>\n",
        &[],
    ),
    (
        "GET_CONFIRMATION\n",
        "ERR 67109144 IPC parameter error <GPG Agent>\n",
        &[],
    ),
    // The client gives the passphrase itself.
    (
        "OPTION pinentry-mode=loopback\nGET_PASSPHRASE --data id1 X X X\nD se\nD cre\nD t\nEND\nGET_PASSPHRASE id1\n",
        "OK\nS INQUIRE_MAXLEN 255\nINQUIRE PASSPHRASE\nD secret\nOK\nOK 736563726574\n",
        &[],
    ),
    (
        "OPTION pinentry-mode=loopback\nGET_PASSPHRASE --data id1 X X X\nCAN\nGET_PASSPHRASE id1\n",
        "OK\nS INQUIRE_MAXLEN 255\nINQUIRE PASSPHRASE\nERR 67108963 Operation cancelled <GPG Agent>\nERR 67108922 No data <GPG Agent>\n",
        &[],
    ),
    (
        "OPTION pinentry-mode=loopback\nGET_PASSPHRASE --data id1 X X X\nNOP\n",
        "OK\nS INQUIRE_MAXLEN 255\nINQUIRE PASSPHRASE\nERR 67109138 Unexpected IPC command <GPG Agent>\n",
        &[],
    ),
    // It is neither checked nor repeated.
    (
        "OPTION pinentry-mode=loopback\nGET_PASSPHRASE --check --repeat id1 X X X\nD a\nEND\n",
        "OK\nS INQUIRE_MAXLEN 255\nINQUIRE PASSPHRASE\nOK 61\n",
        &[],
    ),
    (
        "OPTION pinentry-mode=loopback\nGET_PASSPHRASE X X X X\nD a\nEND\nGET_PASSPHRASE X\n",
        "OK\nS INQUIRE_MAXLEN 255\nINQUIRE PASSPHRASE\nOK 61\nERR 67108922 No data <GPG Agent>\n",
        &[],
    ),
];
