//! Pinentries of the tests of sessions on keys, and how their prompts begin. Begin with
//! `OLD_PROMPT` and `ASKED`. Plain data, made by tools/key-sessions.

use crate::prompts::{Child, Opening};

/// A prompt for the passphrase of a key.
pub(crate) const OLD_PROMPT: Opening = (
    "OK Pleased to meet you\nD 9\nOK\nOK\nOK\nOK\n",
    "GETINFO pid\nSETKEYINFO --clear\nSETDESC Please enter the passphrase for key 81594C58EF1286E89015A30A5CC2072D343B3307\nSETPROMPT Passphrase:\n",
);

/// A prompt for a new one.
pub(crate) const NEW_PROMPT: Opening = (
    "OK Pleased to meet you\nD 9\nOK\nOK\nOK\nOK\nOK\n",
    "GETINFO pid\nSETKEYINFO --clear\nSETDESC Please enter a new passphrase for key 81594C58EF1286E89015A30A5CC2072D343B3307\nSETPROMPT Passphrase:\nSETQUALITYBAR\n",
);

/// A question whether a key may be deleted.
pub(crate) const DELETE_PROMPT: Opening = (
    "OK\nD 9\nOK\nOK\nOK\n",
    "GETINFO pid\nSETKEYINFO --clear\nSETDESC Delete key 81594C58EF1286E89015A30A5CC2072D343B3307?\n",
);

/// A prompt for the passphrase of a key, with the text that SETKEYDESC set.
pub(crate) const SET_PROMPT: Opening = (
    "OK Pleased to meet you\nD 9\nOK\nOK\nOK\nOK\n",
    "GETINFO pid\nSETKEYINFO --clear\nSETDESC Unlock%0Ait now\nSETPROMPT Passphrase:\n",
);

/// A question whether a key may be deleted, with that text.
pub(crate) const SET_DELETE_PROMPT: Opening = (
    "OK\nD 9\nOK\nOK\nOK\n",
    "GETINFO pid\nSETKEYINFO --clear\nSETDESC Unlock%0Ait now\n",
);

/// A prompt for the passphrase of the longest key.
pub(crate) const LONGEST_OLD_PROMPT: Opening = (
    "OK Pleased to meet you\nD 9\nOK\nOK\nOK\nOK\n",
    "GETINFO pid\nSETKEYINFO --clear\nSETDESC Please enter the passphrase for key C931AB68DBF4D96547E9A23EED267608111AACFE\nSETPROMPT Passphrase:\n",
);

/// A prompt for a new one.
pub(crate) const LONGEST_NEW_PROMPT: Opening = (
    "OK Pleased to meet you\nD 9\nOK\nOK\nOK\nOK\nOK\n",
    "GETINFO pid\nSETKEYINFO --clear\nSETDESC Please enter a new passphrase for key C931AB68DBF4D96547E9A23EED267608111AACFE\nSETPROMPT Passphrase:\nSETQUALITYBAR\n",
);

/// A prompt for the passphrase of a key that is longer by one byte.
pub(crate) const LONGER_OLD_PROMPT: Opening = (
    "OK Pleased to meet you\nD 9\nOK\nOK\nOK\nOK\n",
    "GETINFO pid\nSETKEYINFO --clear\nSETDESC Please enter the passphrase for key 991B4939D1B18937C2DEB2B1F0B5F3DA4D0862F3\nSETPROMPT Passphrase:\n",
);

/// The user types `abcdefg1`, the passphrase of most key files.
pub(crate) const ASKED: Child = (OLD_PROMPT, "D abcdefg1\nOK\n", "GETPIN\nBYE\n");

/// The user types `hijklmn2`, which most keys get.
pub(crate) const VERIFIED: Child = (OLD_PROMPT, "D hijklmn2\nOK\n", "GETPIN\nBYE\n");

/// The user types `abcdefg1` where a prompt has the text that SETKEYDESC set.
pub(crate) const DESCRIBED: Child = (SET_PROMPT, "D abcdefg1\nOK\n", "GETPIN\nBYE\n");

/// The user types `abcdefg1` as a new passphrase, and repeats it.
pub(crate) const TWICE: Child = (
    NEW_PROMPT,
    "D abcdefg1\nOK\nOK\nD abcdefg1\nOK\n",
    "GETPIN\nSETERROR Please repeat the passphrase\nGETPIN\nBYE\n",
);

/// The user types `hijklmn2` as a new passphrase, and repeats it.
pub(crate) const NEXT_TWICE: Child = (
    NEW_PROMPT,
    "D hijklmn2\nOK\nOK\nD hijklmn2\nOK\n",
    "GETPIN\nSETERROR Please repeat the passphrase\nGETPIN\nBYE\n",
);

/// The user agrees that a key is deleted.
pub(crate) const AGREED: Child = (DELETE_PROMPT, "OK\n", "CONFIRM\nBYE\n");

/// The user doesn't agree.
pub(crate) const KEPT: Child = (DELETE_PROMPT, "ERR 83886194\n", "CONFIRM\nBYE\n");

/// The user isn't asked, since the client has put an end to the prompt.
pub(crate) const UNASKED: Child = (DELETE_PROMPT, "", "BYE\n");

/// The user types the passphrase of a key that is longer by one byte.
pub(crate) const LONGER_ASKED: Child = (LONGER_OLD_PROMPT, "D abcdefg1\nOK\n", "GETPIN\nBYE\n");
