//! Tests of extended key files as GnuPG 2.2.40 wrote them, whose lines it folds within words.

use crate::extended::{Row, first_wrong};
use std::test::Fail;

// What `gpg --quick-generate-key` made of the curve, with the passphrase `correct horse` or with
// none. The canonical expression is libgcrypt's, of the lines as GnuPG's own reader joins them.
const NIST_P_256: &[u8] = br#"Created: 20261202T035030
Key: (protected-private-key (ecc (curve "NIST P-256")(q
  #04AB9ADFC6EC6AD0F261F6FB6B63EBFC17FDCAC3506438B42DC9E4D035D25122C061
 2242841B067110C75C42F47F11F960002EE0C7C88EFFA984C3AF498D7D84C4#)(prote
 cted openpgp-s2k3-ocb-aes ((sha1 #F751210335259631#
  "77582336")#6C2CCEF4A16177357B16222B#)#9A4DDE17970A58A214E7C13BA8FC51
 BF4C46EA6F27375A81AAF556958A409DED14B277DFE82DDC675606CCE33785D5155DD3
 5F6F177F906793870C24#)(protected-at "20261202T035030")))
"#;

const NIST_P_256_CANONICAL: &[u8] =
    b"(21:protected-private-key(3:ecc(5:curve10:NIST P-256)(1:q65:\x04\xab\x9a\xdf\xc6\xec\x6a\xd0\
    \xf2\x61\xf6\xfb\x6b\x63\xeb\xfc\x17\xfd\xca\xc3\x50\x64\x38\xb4\x2d\xc9\xe4\xd0\x35\xd2\x51\
    \x22\xc0\x61\x22\x42\x84\x1b\x06\x71\x10\xc7\x5c\x42\xf4\x7f\x11\xf9\x60\x00\x2e\xe0\xc7\xc8\
    \x8e\xff\xa9\x84\xc3\xaf\x49\x8d\x7d\x84\xc4)(9:protected20:openpgp-s2k3-ocb-aes((4:sha18:\
    \xf7\x51\x21\x03\x35\x25\x96\x318:77582336)12:\x6c\x2c\xce\xf4\xa1\x61\x77\x35\x7b\x16\x22\
    \x2b)60:\x9a\x4d\xde\x17\x97\x0a\x58\xa2\x14\xe7\xc1\x3b\xa8\xfc\x51\xbf\x4c\x46\xea\x6f\x27\
    \x37\x5a\x81\xaa\xf5\x56\x95\x8a\x40\x9d\xed\x14\xb2\x77\xdf\xe8\x2d\xdc\x67\x56\x06\xcc\xe3\
    \x37\x85\xd5\x15\x5d\xd3\x5f\x6f\x17\x7f\x90\x67\x93\x87\x0c\x24)(12:protected-at\
    15:20261202T035030)))";

const BRAINPOOL_P_256: &[u8] = br#"Created: 20261202T035034
Key: (protected-private-key (ecc (curve brainpoolP256r1)(q
  #040CBBBBA13B084907CABF97D432AD5284B2B1347225D79A6E5E35F008BD5351A438
 FAFB1D763502C9357F8E53CD3AF738D273353811D53E965245CBDC623A4741#)(prote
 cted openpgp-s2k3-ocb-aes ((sha1 #7890B9234D2B51B3#
  "77582336")#3D185DEB370E7FE0E244ADCC#)#6D68DF2CBB30FEF05447C4CD408673
 6C046829EC23A55734F3A4D536D7488C73EBBD18BA42F94C72BE6707E15FE8BDEB6EEC
 05FE84B023F41A3FC17A#)(protected-at "20261202T035034")))
"#;

const BRAINPOOL_P_256_CANONICAL: &[u8] =
    b"(21:protected-private-key(3:ecc(5:curve15:brainpoolP256r1)(1:q65:\x04\x0c\xbb\xbb\xa1\x3b\x08\
    \x49\x07\xca\xbf\x97\xd4\x32\xad\x52\x84\xb2\xb1\x34\x72\x25\xd7\x9a\x6e\x5e\x35\xf0\x08\xbd\
    \x53\x51\xa4\x38\xfa\xfb\x1d\x76\x35\x02\xc9\x35\x7f\x8e\x53\xcd\x3a\xf7\x38\xd2\x73\x35\x38\
    \x11\xd5\x3e\x96\x52\x45\xcb\xdc\x62\x3a\x47\x41)(9:protected20:openpgp-s2k3-ocb-aes((4:sha1\
    8:\x78\x90\xb9\x23\x4d\x2b\x51\xb38:77582336)12:\x3d\x18\x5d\xeb\x37\x0e\x7f\xe0\xe2\x44\xad\
    \xcc)60:\x6d\x68\xdf\x2c\xbb\x30\xfe\xf0\x54\x47\xc4\xcd\x40\x86\x73\x6c\x04\x68\x29\xec\x23\
    \xa5\x57\x34\xf3\xa4\xd5\x36\xd7\x48\x8c\x73\xeb\xbd\x18\xba\x42\xf9\x4c\x72\xbe\x67\x07\xe1\
    \x5f\xe8\xbd\xeb\x6e\xec\x05\xfe\x84\xb0\x23\xf4\x1a\x3f\xc1\x7a)(12:protected-at\
    15:20261202T035034)))";

const SECP256K1: &[u8] = br#"Created: 20261202T035038
Key: (private-key (ecc (curve secp256k1)(q
  #040FD03E89A5C804FE66D715A1A265D14C9C5BE2C688B9D4083B6DC1C5BF60D1435C
 51A03998D130DC94965B982EA189C7714147641A2F3A0C3B60CC742C5012A0#)(d
  #3A1A4F845B8A6D518ACFCDE6B89C43A7B69E79FC6E59C0E32CFB5ED592B70819#)))
"#;

const SECP256K1_CANONICAL: &[u8] =
    b"(11:private-key(3:ecc(5:curve9:secp256k1)(1:q65:\x04\x0f\xd0\x3e\x89\xa5\xc8\x04\xfe\x66\xd7\
    \x15\xa1\xa2\x65\xd1\x4c\x9c\x5b\xe2\xc6\x88\xb9\xd4\x08\x3b\x6d\xc1\xc5\xbf\x60\xd1\x43\x5c\
    \x51\xa0\x39\x98\xd1\x30\xdc\x94\x96\x5b\x98\x2e\xa1\x89\xc7\x71\x41\x47\x64\x1a\x2f\x3a\x0c\
    \x3b\x60\xcc\x74\x2c\x50\x12\xa0)(1:d32:\x3a\x1a\x4f\x84\x5b\x8a\x6d\x51\x8a\xcf\xcd\xe6\xb8\
    \x9c\x43\xa7\xb6\x9e\x79\xfc\x6e\x59\xc0\xe3\x2c\xfb\x5e\xd5\x92\xb7\x08\x19)))";

#[test]
fn lines_are_joined_as_gnupg_folds_them(rt: HostRuntime) -> Result<(), Fail> {
    let rows: [Row<'_>; 3] = [
        (NIST_P_256, Ok(NIST_P_256_CANONICAL)),
        (BRAINPOOL_P_256, Ok(BRAINPOOL_P_256_CANONICAL)),
        (SECP256K1, Ok(SECP256K1_CANONICAL)),
    ];
    assert_eq!(rt; first_wrong(rt.alloc(), &rows)?, None);
    Ok(())
}
