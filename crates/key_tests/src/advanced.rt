//! Tests of the advanced form of S-expressions: what each text is read as, and which fault stands
//! where. Begin with `Row` and `first_wrong`.

use sexp_advanced::{
    AdvFault, atoms_are_spelled, first_faults_stay, one_answer, read_advanced,
    what_follows_does_not_matter, write_advanced, written_is_read,
};
use sexp_canonical::{read, write};
use std::alloc::Global;
use std::test::*;

// A text, and what it gives: the canonical form of its expression and how many of its bytes were
// read, or a fault.
#[derive(Clone, Copy)]
struct Row<'a> {
    text: &'a [u8],
    want: Want<'a>,
}

#[derive(Clone, Copy)]
enum Want<'a> {
    Tree(&'a [u8], usize),
    Fault(AdvFault),
}

fn reads<'a>(text: &'a [u8], canonical: &'a [u8], len: usize) -> Row<'a> {
    Row {
        text,
        want: Want::Tree(canonical, len),
    }
}

fn fails<'a>(text: &'a [u8], fault: AdvFault) -> Row<'a> {
    Row {
        text,
        want: Want::Fault(fault),
    }
}

// The first row that comes out otherwise.
fn first_wrong(alloc: Global, rows: &[Row]) -> Result<Option<usize>, Fail> {
    for (number, row) in rows.iter().enumerate() {
        let right = match (read_advanced(alloc, row.text), &row.want) {
            (Ok((tree, len)), Want::Tree(canonical, wanted)) => {
                len == *wanted && write(alloc, &tree)?.as_slice() == *canonical
            }
            (Err(fault), Want::Fault(wanted)) => fault == *wanted,
            _ => false,
        };
        if !right {
            return Ok(Some(number));
        }
    }
    Ok(None)
}

#[test]
fn each_form_of_an_atom_is_read(rt: HostRuntime) -> Result<(), Fail> {
    let rows = [
        reads(
            b"(private-key (ecc (q \"Q\") (d #44#)))",
            b"(11:private-key(3:ecc(1:q1:Q)(1:d1:D)))",
            36,
        ),
        reads(b"\t\r\n abc)", b"3:abc", 7),
        reads(b"-./_:*+=0 ", b"9:-./_:*+=0", 9),
        reads(b"##", b"0:", 2),
        reads(b"# 4 4\n4 5#z", b"2:DE", 10),
        reads(b"#aBCdeF#", b"3:\xab\xcd\xef", 8),
        reads(b"\"\"\"", b"0:", 2),
        reads(
            b"\"\\b\\t\\v\\n\\f\\r\\\"\\'\\\\\"",
            b"9:\x08\x09\x0b\x0a\x0c\x0d\"'\\",
            20,
        ),
        reads(b"\"\\000\\377\\101\\x4a\\xFf\"", b"5:\x00\xffAJ\xff", 22),
        reads(b"(3:a b4:(x)\n c)", b"(3:a b4:(x)\n1:c)", 15),
        reads(b"()()", b"()", 2),
    ];
    assert_eq!(rt; first_wrong(rt.alloc(), &rows)?, None);
    one_answer();
    written_is_read();
    what_follows_does_not_matter();
    atoms_are_spelled();
    first_faults_stay();
    Ok(())
}

#[test]
fn faults_come_with_their_places(rt: HostRuntime) -> Result<(), Fail> {
    let rows = [
        fails(b"", AdvFault::Short),
        fails(b" (a", AdvFault::Short),
        fails(b"(#4", AdvFault::Short),
        fails(b"\"a\\x4", AdvFault::Short),
        fails(b"\"\\37", AdvFault::Short),
        fails(b"12", AdvFault::Short),
        fails(b"3:ab", AdvFault::Short),
        fails(b" )", AdvFault::BadByte(1)),
        fails(b"(a [", AdvFault::BadByte(3)),
        fails(b"{", AdvFault::BadByte(0)),
        fails(b"(a|", AdvFault::BadByte(2)),
        fails(b"(a \"b\nc\")", AdvFault::BadAtom(3)),
        fails(b"(a \"b\rc\")", AdvFault::BadAtom(3)),
        fails(b"\"\\q\"", AdvFault::BadAtom(0)),
        fails(b"\"\\\n\"", AdvFault::BadAtom(0)),
        fails(b"\"a\\400\"", AdvFault::BadAtom(0)),
        fails(b"\"\\378\"", AdvFault::BadAtom(0)),
        fails(b"\"\\x4g\"", AdvFault::BadAtom(0)),
        fails(b"(a #44x", AdvFault::BadAtom(3)),
        fails(b"(a # 4#", AdvFault::BadAtom(3)),
        fails(b"(1a:", AdvFault::BadAtom(1)),
        fails(b"(03:abc)", AdvFault::BadAtom(1)),
        fails(b" 65537:", AdvFault::BadAtom(1)),
    ];
    assert_eq!(rt; first_wrong(rt.alloc(), &rows)?, None);
    Ok(())
}

#[test]
fn as_many_lists_as_the_limit_allows(rt: HostRuntime) -> Result<(), Fail> {
    let mut lists = vec![in rt.alloc(); b'('; 64]?;
    for _ in 0..64 {
        lists.push(b')')?;
    }
    let open = vec![in rt.alloc(); b'('; 65]?;
    let (_tree, len) = read_advanced(rt.alloc(), &lists)?;
    assert_eq!(rt; len, 128);
    assert_eq!(rt;
        read_advanced(rt.alloc(), &open).err(),
        Some(AdvFault::Deep(64))
    );
    Ok(())
}

#[test]
fn as_many_bytes_as_a_key_file_has(rt: HostRuntime) -> Result<(), Fail> {
    let rows: [(&[u8], &[u8], usize, &[u8]); 6] = [
        (b"", b"a", 65_536, b""),
        (b"#", b" 4 1", 16_383, b"#"),
        (b"\"", b"\\x41", 16_383, b"\""),
        (b"(", b"() ", 21_844, b")"),
        (b"(", b"a ", 32_767, b")"),
        (b"65530:", b"x", 65_530, b""),
    ];
    for (front, part, count, back) in rows {
        let mut text = Vec::from_slice(rt.alloc(), front)?;
        for _ in 0..count {
            text.extend_from_slice(part)?;
        }
        text.extend_from_slice(back)?;
        let (_tree, len) = read_advanced(rt.alloc(), &text)?;
        assert_eq!(rt; len, text.len());
    }
    Ok(())
}

#[test]
fn an_expression_is_written_in_one_line(rt: HostRuntime) -> Result<(), Fail> {
    let rows: [(&[u8], &[u8]); 5] = [
        (
            b"(11:private-key(3:ecc(1:q1:Q)(1:d1:\x00)))",
            b"(private-key (ecc (q Q) (d #00#)))",
        ),
        (b"(()(())1:a)", b"(() (()) a)"),
        (b"0:", b"##"),
        (b"9:-./_:*+=0", b"-./_:*+=0"),
        (b"(2:0a3:a b2:\xab\x9f)", b"(#3061# #612062# #AB9F#)"),
    ];
    for (canonical, advanced) in rows {
        let (tree, _len) = read(rt.alloc(), canonical)?;
        assert_eq!(rt; write_advanced(rt.alloc(), &tree)?.as_slice(), advanced);
    }
    Ok(())
}

#[test]
fn faults_are_printed(rt: HostRuntime) -> Result<(), Fail> {
    let cases = [
        (AdvFault::BadByte(3), "unexpected byte at 3"),
        (AdvFault::BadAtom(1), "bad atom at 1"),
        (AdvFault::Deep(64), "too many open lists at 64"),
        (AdvFault::Short, "the expression is cut off"),
        (AdvFault::NoMemory, "out of memory"),
    ];
    for (fault, want) in cases {
        let text = format!(in rt.alloc(); "{fault}")?;
        assert_eq!(rt; text.as_str(), want);
    }
    Ok(())
}
