//! Key files of the tests, their grips, and what rows on them begin from. Begin with `CLEAR`, the
//! key that most of them have. Plain data, made by tools/key-sessions.

use crate::rows::{KEYS, Row};

pub(crate) const GRIP: &str = "81594C58EF1286E89015A30A5CC2072D343B3307";

pub(crate) const DSA_GRIP: &str = "0000000000000000000000000000000000000001";

pub(crate) const CLEAR: &[u8] = b"(11:private-key(3:ecc(1:q1:Q)(1:d1:D)))";

pub(crate) const DSA: &[u8] =
    b"(11:private-key(3:dsa(1:p2:\x01\x02)(1:q1:\x03)(1:g1:\x04)(1:y1:\x05)(1:x1:\x06)))";

pub(crate) const BY_CBC: &[u8] =
    b"(21:protected-private-key(3:ecc(1:q1:Q)(9:protected25:openpgp-s2k3-sha1-aes-cbc((4:sha18:\x01\x02\x03\x04\x05\x06\x07\x082:96)16:\x10\x11\x12\x13\x14\x15\x16\x17\x18\x19\x1a\x1b\x1c\x1d\x1e\x1f)64:\x9e\x98\x95Yi*\x1b\x91\xd9e{[`D\xff\x06\xa8\xc3\x9eo\xc6w\xf3}\xb0\x07i\xf1C\x9c\x83n\x12\x86\xb5\x7f\xc0}I\x83\x02\x1b\xe7O\x0f\xf0\xd8\xea\xde\xb3\xa8\x18\xfa\x03\x1f\xd1\x10\xbf\xc6\x8f\xf2\xcf\x8b\x97)))";

pub(crate) const BY_OCB: &[u8] =
    b"(21:protected-private-key(3:ecc(1:q1:Q)(9:protected20:openpgp-s2k3-ocb-aes((4:sha18: !\"#$%&'5:65536)12:()*+,-./0123)28:\x9d=\xe3\xd4\x88\x93\x844\xe0q\x15\x0bU`\xb3`\xf1\x87\xb6\xa9(j\xb2\n\x1cNtU)))";

pub(crate) const CHANGED: &[u8] =
    b"(21:protected-private-key(3:ecc(1:q1:Q)(9:protected20:openpgp-s2k3-ocb-aes((4:sha18: !\"#$%&'5:65536)12:()*+,-./0123)28:\xed\xbb\xa2z\xf7W\xcb3\xb4\x93\x8f\xa7\xaf\x12\x15\xb2\xcc\xe2s\xdd9\xe2nknWS\xcc)))";

pub(crate) const SHADOWED: &[u8] = b"(20:shadowed-private-key(3:ecc(1:q1:Q)))";

pub(crate) const EXTENDED: &[u8] = b"Created: x\nKey: (private-key (ecc (q \"Q\")\n (d #44#)))\n";

pub(crate) const EXTENDED_CHANGED: &[u8] =
    b"Created: x\nKey: (protected-private-key (ecc (q Q) (protected openpgp-s2k3-ocb-aes ((sha1 #2021222324252627# #3635353336#) #28292A2B2C2D2E2F30313233#) #EDBBA27AF757CB33B4938FA7AF1215B2CCE273DD39E26E6B6E5753CC#)))\n";

pub(crate) const WITHOUT_KEY: &[u8] = b"Created: x\n";

pub(crate) const IN_AGAIN: &[u8] =
    b"(21:protected-private-key(3:ecc(1:q1:Q)(9:protected20:openpgp-s2k3-ocb-aes((4:sha18:'&%$#\"! 5:65536)12:()*+,-./0123)28:\x85\xb7D\xe2p\xa1<\xf5K%\x13\x9a\x04\xc9\xb9uV\xa9\x96U\xae\x95g\xc3\xa0h\xa3,)))";

pub(crate) const IN_LATER: &[u8] =
    b"(21:protected-private-key(3:ecc(1:q1:Q)(9:protected20:openpgp-s2k3-ocb-aes((4:sha18:'&%$#\"! 5:65536)12:3210/.-,+*)()28:Q\x92\xe8\x15\xa0\xb6\xdd\xb3\xc3{\xbcN\xa44,\x8d\xca\x9d\x14\\\x1b\x1b~\x15\xa4Q@\xe3)))";

pub(crate) const CHANGED_LATER: &[u8] =
    b"(21:protected-private-key(3:ecc(1:q1:Q)(9:protected20:openpgp-s2k3-ocb-aes((4:sha18:'&%$#\"! 5:65536)12:3210/.-,+*)()28:\xefn\n\x12\xd4\xac\x9f\xb4\xa3\x03\xf1\n\xfc\xa3\xb9\x1f\xba&\xe8\xa5P\xb9\xc2&\xaa\xcc\x84\x04)))";

pub(crate) const EMPTY: &[u8] = b"";

/// A session with one key, and these random bytes.
pub(crate) const WITH_A_KEY: Row = Row {
    files: &[(GRIP, CLEAR)],
    dice: b"wraps a key 2415a salt 8and an iv 12and a nonce.",
    ..KEYS
};

/// A session with a key whose file stays as it is.
pub(crate) const KEY_STAYS: Row = Row {
    files: &[(GRIP, BY_CBC)],
    files_after: Some(&[(GRIP, BY_CBC)]),
    ..KEYS
};

/// One in which a key gets another passphrase.
pub(crate) const KEY_CHANGES: Row = Row {
    files: &[(GRIP, BY_CBC)],
    files_after: Some(&[(GRIP, CHANGED)]),
    dice: b" !\"#$%&'()*+,-./0123",
    ..KEYS
};

/// One into which a key comes.
pub(crate) const KEY_COMES_IN: Row = Row {
    files_after: Some(&[(GRIP, BY_OCB)]),
    dice: b"wraps a key 2415 !\"#$%&'()*+,-./0123\xa0\xa1\xa2\xa3\xa4\xa5\xa6\xa7\xa8\xa9\xaa\xab",
    ..KEYS
};

/// One in which a key is deleted.
pub(crate) const KEY_GOES: Row = Row {
    files: &[(GRIP, BY_CBC)],
    files_after: Some(&[]),
    ..KEYS
};
