//! Tests of a key's lists: which expressions are keys, their first faults, and the lists and the
//! grip that each has. Begin with `a_clear_key_has_its_lists_and_its_grip` and
//! `keys_and_first_faults`.

use sexp_canonical::{Items, Sexp, read};
use sexp_keys::{Algorithm, KeyFault, KeyList, one_answer};
use std::test::*;

fn key_of(rt: &HostRuntime, text: &[u8]) -> Result<Result<KeyList, KeyFault>, Fail> {
    let (tree, _len) = read(rt.alloc(), text)?;
    Ok(KeyList::of(rt.alloc(), &tree))
}

#[test]
fn a_clear_key_has_its_lists_and_its_grip(rt: HostRuntime) -> Result<(), Fail> {
    let file = b"(11:private-key(3:ecc(1:q1:Q)(1:d1:D)))";
    let key = key_of(&rt, file)??;
    assert!(rt; key.is_clear());
    assert_eq!(rt; key.algorithm(), Algorithm::Ecc);
    assert_eq!(rt; key.private().len(), 1);
    assert_eq!(rt;
        key.public_list(rt.alloc())?.as_slice(),
        b"(10:public-key(3:ecc(1:q1:Q)))".as_slice()
    );
    assert_eq!(rt; key.private_list(rt.alloc())?.as_slice(), file.as_slice());
    assert_eq!(rt;
        key.hashed_list(rt.alloc(), None)?.as_slice(),
        b"(3:ecc(1:q1:Q)(1:d1:D))".as_slice()
    );
    assert_eq!(rt;
        key.hashed_list(rt.alloc(), Some(b"20240101T000000"))?
            .as_slice(),
        b"(3:ecc(1:q1:Q)(1:d1:D)(12:protected-at15:20240101T000000))".as_slice()
    );
    assert_eq!(rt;
        key.associated_list(rt.alloc(), Some(b"20240101T000000"))?
            .as_slice(),
        b"(3:ecc(1:q1:Q)(12:protected-at15:20240101T000000))".as_slice()
    );
    assert_eq!(rt;
        key.grip(rt.alloc())?.text().as_slice(),
        b"81594C58EF1286E89015A30A5CC2072D343B3307".as_slice()
    );
    let protection = [Sexp::list(vec![in rt.alloc(); Sexp::atom(rt.alloc(), b"protected")?]?)];
    let file = key.protected_list(rt.alloc(), &protection)?;
    assert_eq!(rt;
        file.as_slice(),
        b"(21:protected-private-key(3:ecc(1:q1:Q)(9:protected)))".as_slice()
    );
    assert!(rt;
        key_of(&rt, &file)??
            .with_secret(rt.alloc(), Items::from(Vec::new(rt.alloc())))?
            .is_none()
    );
    one_answer();
    Ok(())
}

#[test]
fn keys_and_first_faults(rt: HostRuntime) -> Result<(), Fail> {
    let cases: [(&[u8], Option<KeyFault>); 24] = [
        (
            b"(11:private-key(3:rsa(1:n1:N)(1:e1:E)(1:d1:D)(1:p1:P)(1:q1:Q)(1:u1:U))(7:comment))",
            None,
        ),
        (
            b"(11:private-key(3:dsa(1:p1:P)(1:q1:Q)(1:g1:G)(1:y1:Y)(1:x1:X)))",
            None,
        ),
        (
            b"(11:private-key(3:elg(1:p1:P)(1:g1:G)(1:y1:Y)(1:x1:X)))",
            None,
        ),
        (
            b"(11:private-key(3:ecc(5:curve7:Ed25519)(5:flags5:eddsa)(1:q1:Q)(1:d1:D)))",
            None,
        ),
        (
            b"(21:protected-private-key(3:ecc(1:q1:Q)(9:protected1:x)(12:protected-at1:t)))",
            None,
        ),
        (b"11:private-key", Some(KeyFault::InvSexp)),
        (b"()", Some(KeyFault::InvSexp)),
        (b"((11:private-key))", Some(KeyFault::InvSexp)),
        (b"(10:public-key(3:ecc(1:q1:Q)))", Some(KeyFault::InvSexp)),
        (
            b"(20:shadowed-private-key(3:ecc(1:q1:Q)))",
            Some(KeyFault::Shadowed),
        ),
        (b"(19:openpgp-private-key)", Some(KeyFault::NotSupported)),
        (b"(11:private-key)", Some(KeyFault::BadSecKey)),
        (b"(11:private-key3:ecc)", Some(KeyFault::BadSecKey)),
        (b"(11:private-key((3:ecc)))", Some(KeyFault::BadSecKey)),
        (
            b"(11:private-key(4:ecdh(1:q1:Q)(1:d1:D))1:x)",
            Some(KeyFault::NotSupported),
        ),
        (
            b"(11:private-key(3:ecc(1:q1:Q)(1:d1:D))1:x)",
            Some(KeyFault::BadSecKey),
        ),
        (
            b"(11:private-key(3:ecc(1:d1:D)))",
            Some(KeyFault::BadSecKey),
        ),
        (
            b"(11:private-key(3:ecc(1:q1:Q)(1:d)))",
            Some(KeyFault::BadSecKey),
        ),
        (
            b"(11:private-key(3:elg(1:p1:P)(1:g1:G)(1:y1:Y)(1:x1:X1:Z)))",
            Some(KeyFault::BadSecKey),
        ),
        (
            b"(11:private-key(3:dsa(1:p1:P)(1:g1:G)(1:q1:Q)(1:y1:Y)(1:x1:X)))",
            Some(KeyFault::BadSecKey),
        ),
        (
            b"(21:protected-private-key(3:ecc(1:q1:Q)(1:d1:D)))",
            Some(KeyFault::BadSecKey),
        ),
        (
            b"(21:protected-private-key(3:ecc(1:q1:Q)(12:protected-at1:t)(9:protected1:x)))",
            Some(KeyFault::BadSecKey),
        ),
        (
            b"(21:protected-private-key(3:ecc(1:q1:Q)(9:protected)(12:protected-at1:t)(12:protected-at1:t)))",
            Some(KeyFault::BadSecKey),
        ),
        (
            b"(21:protected-private-key(3:ecc(1:q1:Q)(9:protected)(12:protected-at(1:t))))",
            Some(KeyFault::BadSecKey),
        ),
    ];
    for (text, want) in cases {
        assert_eq!(rt; key_of(&rt, text)?.err(), want, "at {text:?}");
    }
    Ok(())
}

#[test]
fn faults_are_printed(rt: HostRuntime) -> Result<(), Fail> {
    let cases = [
        (KeyFault::InvSexp, "not a private key"),
        (KeyFault::BadSecKey, "bad parameters of a private key"),
        (KeyFault::Shadowed, "the private key is on a card"),
        (KeyFault::NotSupported, "a private key of another kind"),
        (KeyFault::NoMemory, "out of memory"),
    ];
    for (fault, want) in cases {
        let text = format!(in rt.alloc(); "{fault}")?;
        assert_eq!(rt; text.as_str(), want);
    }
    Ok(())
}
