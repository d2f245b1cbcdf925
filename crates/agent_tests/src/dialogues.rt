//! The dialogues of docs/PROTOCOL.md: what the client sends, and what it is answered.
//! Plain data, which `sessions.rt` serves; made by tools/dialogues.

pub(crate) const DIALOGUES: [(&str, &str); 20] = [
    ("NOP\n", "OK\n"),
    ("OPTION s2k-count=65536\nRESET\n", "OK\nOK\n"),
    ("BYE\nNOP\n", "OK closing connection\n"),
    (
        "HELP\n",
        "# NOP\n# RESET\n# BYE\n# HELP\n# OPTION\n# GETINFO\n# GET_PASSPHRASE\n# PRESET_PASSPHRASE\n# CLEAR_PASSPHRASE\n# GET_CONFIRMATION\n# RELOADAGENT\n# KILLAGENT\n# HAVEKEY\n# KEYINFO\n# KEYWRAP_KEY\n# IMPORT_KEY\n# EXPORT_KEY\n# PASSWD\n# DELETE_KEY\nOK\n",
    ),
    (
        "OPTION --ttyname = /dev/pts/1\nOPTION s2k-count=65535\nOPTION foo=1\n",
        "OK\nERR 67109144 IPC parameter error <GPG Agent>\nERR 67109038 Unknown option <GPG Agent>\n",
    ),
    (
        "GETINFO version\nGETINFO s2k_count\nGETINFO cmd_has_option GET_PASSPHRASE repeat\nGETINFO cmd_has_option GET_PASSPHRASE inquire\n",
        "D 2.4.0\nOK\nD 4194304\nOK\nOK\nERR 67108924 Not supported <GPG Agent>\n",
    ),
    (
        "GET_PASSPHRASE --no-ask --data id1\nPRESET_PASSPHRASE id1 -1 736563726574\nGET_PASSPHRASE --no-ask --data id1\nGET_PASSPHRASE id1\nOPTION pinentry-mode=cancel\nGET_PASSPHRASE id1 X X X\nGET_PASSPHRASE id2 X X X\n",
        "ERR 67108922 No data <GPG Agent>\nOK\nD secret\nOK\nOK 736563726574\nOK\nOK 736563726574\nERR 67108963 Operation cancelled <GPG Agent>\n",
    ),
    (
        "PRESET_PASSPHRASE --inquire id1 -1\nD se\nD cret\nEND\nGET_PASSPHRASE --no-ask --data id1\n",
        "S INQUIRE_MAXLEN 255\nINQUIRE PASSPHRASE\nOK\nD secret\nOK\n",
    ),
    (
        "PRESET_PASSPHRASE id1 0 61\nCLEAR_PASSPHRASE --mode=ssh id1\nGET_PASSPHRASE --no-ask id1\n",
        "OK\nOK\nERR 67108922 No data <GPG Agent>\n",
    ),
    (
        "OPTION pinentry-mode=error\nGET_CONFIRMATION Really+send\nGET_CONFIRMATION\n",
        "OK\nERR 67108950 No pinentry <GPG Agent>\nERR 67109144 IPC parameter error <GPG Agent>\n",
    ),
    (
        "PRESET_PASSPHRASE id1 0 61\nRELOADAGENT\nGET_PASSPHRASE --no-ask id1\n",
        "OK\nOK\nERR 67108922 No data <GPG Agent>\n",
    ),
    ("KILLAGENT\nNOP\n", "OK closing connection\n"),
    (
        "HAVEKEY 0000000000000000000000000000000000000001 81594C58EF1286E89015A30A5CC2072D343B3307\nHAVEKEY 0000000000000000000000000000000000000001\nHAVEKEY --list=0\n",
        "OK\nERR 67108881 No secret key <GPG Agent>\nERR 67109144 IPC parameter error <GPG Agent>\n",
    ),
    (
        "KEYINFO 81594C58EF1286E89015A30A5CC2072D343B3307\nPRESET_PASSPHRASE 81594C58EF1286E89015A30A5CC2072D343B3307 -1 61\nKEYINFO --list\n",
        "S KEYINFO 81594C58EF1286E89015A30A5CC2072D343B3307 D - - - C - - -\nOK\nOK\nS KEYINFO 81594C58EF1286E89015A30A5CC2072D343B3307 D - - 1 C - - -\nOK\n",
    ),
    (
        "KEYWRAP_KEY --export\nKEYWRAP_KEY --export\n",
        "D wraps a key 2415\nOK\nD wraps a key 2415\nOK\n",
    ),
    (
        "EXPORT_KEY 81594C58EF1286E89015A30A5CC2072D343B3307\nKEYWRAP_KEY --export\nEXPORT_KEY 81594C58EF1286E89015A30A5CC2072D343B3307\n",
        "ERR 67109144 IPC parameter error <GPG Agent>\nD wraps a key 2415\nOK\nD %EE%8Fr%EDi=*?em%E4%D7%AFB;%B8G%D7%AC)%8B%85%D7%E14%CB%F3l&%D8GQ%FBcFg%BF%84%BFN%95%80%8D_.%AB%92%E0\nOK\n",
    ),
    (
        "OPTION pinentry-mode=loopback\nOPTION s2k-count=65536\nKEYWRAP_KEY --import\nIMPORT_KEY --force\nD %EE%8F%72%ED%69%3D%2A%3F%65%6D%E4%D7%AF%42%3B%B8%47%D7%AC%29%8B%85%D7%E1%34%CB%F3%6C%26%D8%47%51%FB%63%46%67%BF%84%BF%4E%95%80%8D%5F%2E%AB%92%E0\nEND\nD correct horse 1\nEND\nKEYINFO 81594C58EF1286E89015A30A5CC2072D343B3307\n",
        "OK\nOK\nD wraps a key 2415\nOK\nS INQUIRE_MAXLEN 65544\nINQUIRE KEYDATA\nS INQUIRE_MAXLEN 255\nINQUIRE NEW_PASSPHRASE\nS CACHE_NONCE 616E642061206E6F6E63652E\nOK\nS KEYINFO 81594C58EF1286E89015A30A5CC2072D343B3307 D - - 1 P - - -\nOK\n",
    ),
    (
        "OPTION pinentry-mode=loopback\nOPTION s2k-count=65536\nPASSWD 81594C58EF1286E89015A30A5CC2072D343B3307\nD correct horse 1\nEND\nPASSWD --verify 81594C58EF1286E89015A30A5CC2072D343B3307\nD another horse 1\nEND\n",
        "OK\nOK\nS INQUIRE_MAXLEN 255\nINQUIRE NEW_PASSPHRASE\nOK\nS INQUIRE_MAXLEN 255\nINQUIRE PASSPHRASE\nERR 67108875 Bad passphrase <GPG Agent>\n",
    ),
    (
        "DELETE_KEY --force 81594C58EF1286E89015A30A5CC2072D343B3307\nDELETE_KEY --force 81594C58EF1286E89015A30A5CC2072D343B3307\n",
        "OK\nERR 67108881 No secret key <GPG Agent>\n",
    ),
    (
        "SETKEYDESC Please+unlock%0Athe+key\nSETKEYDESC\n",
        "OK\nERR 67109144 IPC parameter error <GPG Agent>\n",
    ),
];
