//! Tests of canonical S-expressions: read, copied and written again, at the limits of depth and
//! length, and the places of faults. Begin with `a_text_is_read_copied_and_written_again`.

use sexp_canonical::{
    Bytes, Items, Sexp, SexpFault, append, append_atom, lists_are_their_items,
    no_spelling_begins_another, numerals_are_decimal, one_answer, read, write,
};
use std::test::*;

#[test]
fn a_text_is_read_copied_and_written_again(rt: HostRuntime) -> Result<(), Fail> {
    let text = b"(3:abc(1:x0:))";
    let (tree, len) = read(rt.alloc(), text)?;
    assert_eq!(rt; len, 14);
    assert_eq!(rt; write(rt.alloc(), &tree)?.as_slice(), text.as_slice());
    match &tree {
        Sexp::Atom(_bytes) => assert!(rt; false, "a list is read"),
        Sexp::List(items) => assert_eq!(rt; items.as_slice().len(), 2),
    }
    let mut begun = Bytes::from(Vec::from_slice(rt.alloc(), b"(")?);
    append(&mut begun, &tree.copy(rt.alloc())?)?;
    append_atom(&mut begun, b"0123456789")?;
    begun.extend_from_slice(b")")?;
    assert_eq!(rt;
        begun.as_slice(),
        b"((3:abc(1:x0:))10:0123456789)".as_slice()
    );
    let items = Items::from(Vec::new(rt.alloc()));
    assert_eq!(rt; items.into_vec().len(), 0);
    no_spelling_begins_another();
    lists_are_their_items();
    numerals_are_decimal();
    one_answer();
    Ok(())
}

#[test]
fn what_follows_is_not_looked_at(rt: HostRuntime) -> Result<(), Fail> {
    for (text, want) in [(b"1:a[", 3), (b"0:(:", 2), (b"()))", 2)] {
        let (_tree, len) = read(rt.alloc(), text)?;
        assert_eq!(rt; len, want, "at {text:?}");
    }
    Ok(())
}

#[test]
fn faults_come_with_their_places(rt: HostRuntime) {
    let cases: [(&[u8], SexpFault); 14] = [
        (b"(03:abc)", SexpFault::BadLength(1)),
        (b"(3:ab", SexpFault::Short),
        (b"[1:x]1:a", SexpFault::BadByte(0)),
        (b"65536:", SexpFault::Short),
        (b"65537:", SexpFault::BadLength(0)),
        (b"", SexpFault::Short),
        (b"((1:x)", SexpFault::Short),
        (b"12", SexpFault::Short),
        (b")", SexpFault::BadByte(0)),
        (b"(3a:abc)", SexpFault::BadByte(2)),
        (b"(3:abc[", SexpFault::BadByte(6)),
        (b"(1(", SexpFault::BadByte(2)),
        (b"(00", SexpFault::BadLength(1)),
        (b"((99999", SexpFault::BadLength(2)),
    ];
    for (text, fault) in cases {
        let answer = read(rt.alloc(), text).err();
        assert_eq!(rt; answer, Some(fault), "at {text:?}");
    }
}

#[test]
fn as_many_lists_and_bytes_as_the_limits_allow(rt: HostRuntime) -> Result<(), Fail> {
    let mut lists = vec![in rt.alloc(); b'('; 64]?;
    for _ in 0..64 {
        lists.push(b')')?;
    }
    let (_tree, len) = read(rt.alloc(), &lists)?;
    assert_eq!(rt; len, 128);
    let open = vec![in rt.alloc(); b'('; 65]?;
    assert_eq!(rt; read(rt.alloc(), &open).err(), Some(SexpFault::Deep(64)));

    let mut text = Vec::from_slice(rt.alloc(), b"65530:")?;
    for _ in 0..65_530 {
        text.push(b'x')?;
    }
    let (_tree, len) = read(rt.alloc(), &text)?;
    assert_eq!(rt; len, 65_536);
    let mut long = Vec::from_slice(rt.alloc(), b"65531:")?;
    for _ in 0..65_531 {
        long.push(b'x')?;
    }
    assert_eq!(rt; read(rt.alloc(), &long).err(), Some(SexpFault::Short));
    Ok(())
}

#[test]
fn a_tree_of_many_levels_is_made_copied_written_and_dropped(rt: HostRuntime) -> Result<(), Fail> {
    let mut tree = Sexp::atom(rt.alloc(), b"x")?;
    for _ in 0..100_000 {
        let mut items = Vec::new(rt.alloc());
        items.push(tree)?;
        items.push(Sexp::Atom(Bytes::from(Vec::new(rt.alloc()))))?;
        tree = Sexp::list(items);
    }
    assert_eq!(rt; write(rt.alloc(), &tree.copy(rt.alloc())?)?.len(), 400_003);
    Ok(())
}

#[test]
fn faults_are_printed(rt: HostRuntime) -> Result<(), Fail> {
    let cases = [
        (SexpFault::BadByte(3), "unexpected byte at 3"),
        (SexpFault::BadLength(1), "bad length at 1"),
        (SexpFault::Deep(64), "too many open lists at 64"),
        (SexpFault::Short, "the expression is cut off"),
        (SexpFault::NoMemory, "out of memory"),
    ];
    for (fault, want) in cases {
        let text = format!(in rt.alloc(); "{fault}")?;
        assert_eq!(rt; text.as_str(), want);
    }
    Ok(())
}
