//! Tests of extended key files (GnuPG's agent/keyformat.txt): the key that each has, its first
//! fault, and that a changed key leaves every other byte. Begin with `Row` and `Change`.

use key_lines::{LinesFault, read_lines};
use sexp_advanced::AdvFault;
use sexp_canonical::write;
use std::alloc::Global;
use std::test::Fail;

/// A file, and the canonical spelling of its key or its fault.
pub(crate) type Row<'a> = (&'a [u8], Result<&'a [u8], LinesFault>);

/// The number of the first row that comes out otherwise.
pub(crate) fn first_wrong(alloc: Global, rows: &[Row<'_>]) -> Result<Option<usize>, Fail> {
    for (number, (file, wanted)) in rows.iter().enumerate() {
        if !comes_out(alloc, file, wanted)? {
            return Ok(Some(number));
        }
    }
    Ok(None)
}

fn comes_out(alloc: Global, file: &[u8], wanted: &Result<&[u8], LinesFault>) -> Result<bool, Fail> {
    match (read_lines(alloc, file), wanted) {
        (Ok(lines), Ok(canonical)) => Ok(write(alloc, lines.tree())?.as_slice() == *canonical),
        (Err(fault), Err(expected)) => Ok(fault == *expected),
        _ => Ok(false),
    }
}

#[test]
fn a_file_has_its_key(rt: HostRuntime) -> Result<(), Fail> {
    let rows: [Row<'_>; 13] = [
        (
            b"Created: x\nKey: (private-key (ecc (q \"Q\")\n (d #44#)))\n",
            Ok(b"(11:private-key(3:ecc(1:q1:Q)(1:d1:D)))"),
        ),
        (b"Key: (a)", Ok(b"(1:a)")),
        (b"kEY:(a)\r\n", Ok(b"(1:a)")),
        (b"Key:\r\n\t(a\r\n  b)\t \r\n# c\r\n", Ok(b"(1:a1:b)")),
        (b"Key:\r\n\t(a\r\n b)\t \r\n# c\r\n", Ok(b"(2:ab)")),
        (b"Key:(fl\n ags eddsa)\n", Ok(b"(5:flags5:eddsa)")),
        (b"Key: #4\n 1#\nLabel: b\n c\n", Ok(b"1:A")),
        (b"Key: \"a\n b\"\n", Ok(b"2:ab")),
        (b"Key: \"a\n  b\"\n", Ok(b"3:a b")),
        (b"Key: \"a\n \t b\"\n", Ok(b"4:a\t b")),
        (b"Key: \"a \t \r\n b\"\n", Ok(b"2:ab")),
        (
            b"#\n\n \t\nA23456789-123456789-123456789-123456789-123456789-123456789-:\nKey: 1:a",
            Ok(b"1:a"),
        ),
        (b"keys: (\nKey-: {\nKey: a\n \n", Ok(b"1:a")),
    ];
    assert_eq!(rt; first_wrong(rt.alloc(), &rows)?, None);
    Ok(())
}

#[test]
fn a_file_has_its_first_fault(rt: HostRuntime) -> Result<(), Fail> {
    let rows: [Row<'_>; 18] = [
        (b"", Err(LinesFault::NoKey)),
        (b"\n", Err(LinesFault::NoKey)),
        (b"\r\nLabel: Key: a\n", Err(LinesFault::NoKey)),
        (b"\r\r\n", Err(LinesFault::BadLine(0))),
        (b" Key: a\n", Err(LinesFault::BadLine(0))),
        (b"(3:Key)", Err(LinesFault::BadLine(0))),
        (b"Key: (a\n# c\n b)\n", Err(LinesFault::BadLine(2))),
        (b"Key : a\nKey: a\nKey: a\n", Err(LinesFault::BadLine(0))),
        (b"Key: {\n \nKEY: b\n?", Err(LinesFault::TwoKeys(2))),
        (
            b"A23456789-123456789-123456789-123456789-123456789-123456789-a:\nKey: a",
            Err(LinesFault::BadLine(0)),
        ),
        (b"Key:", Err(LinesFault::BadKey(AdvFault::Short))),
        (b"Key: (a", Err(LinesFault::BadKey(AdvFault::Short))),
        (b"Key: {", Err(LinesFault::BadKey(AdvFault::BadByte(0)))),
        (b"Key:  {", Err(LinesFault::BadKey(AdvFault::BadByte(1)))),
        (b"Key: (a)\r", Err(LinesFault::BadKey(AdvFault::BadByte(3)))),
        (
            b"Key: (a)\t\n b",
            Err(LinesFault::BadKey(AdvFault::BadByte(3))),
        ),
        (
            b"Key: (a)\t\n  b",
            Err(LinesFault::BadKey(AdvFault::BadByte(4))),
        ),
        (
            b"Key: (a #4#)",
            Err(LinesFault::BadKey(AdvFault::BadAtom(3))),
        ),
    ];
    assert_eq!(rt; first_wrong(rt.alloc(), &rows)?, None);
    Ok(())
}

/// `Key: (`, as many `a ` and `)`, which is one list of so many atoms.
fn list_of(alloc: Global, count: usize) -> Result<Vec<u8>, Fail> {
    let mut file = Vec::from_slice(alloc, b"Key: (")?;
    for _ in 0..count {
        file.extend_from_slice(b"a ")?;
    }
    file.extend_from_slice(b")")?;
    Ok(file)
}

/// Whether the list of so many atoms is too long.
fn is_too_long(alloc: Global, count: usize) -> Result<bool, Fail> {
    let file = list_of(alloc, count)?;
    comes_out(alloc, file.as_slice(), &Err(LinesFault::TooLong))
}

#[test]
fn a_short_text_has_a_long_key(rt: HostRuntime) -> Result<(), Fail> {
    // Three bytes each, and two parentheses: 65,534 bytes and 65,537.
    let alloc = rt.alloc();
    let counts = [(21_844, false), (21_845, true), (32_764, true)];
    for (count, too_long) in counts {
        assert_eq!(rt; is_too_long(alloc, count)?, too_long, "of {count}");
    }
    Ok(())
}

/// A file, one whose key it is given, and the file with that key.
type Change<'a> = (&'a [u8], &'a [u8], &'a [u8]);

fn changed(alloc: Global, file: &[u8], other: &[u8]) -> Result<Vec<u8>, Fail> {
    let key = read_lines(alloc, other)?;
    Ok(read_lines(alloc, file)?.with_key(alloc, key.tree())?)
}

#[test]
fn every_other_byte_stays(rt: HostRuntime) -> Result<(), Fail> {
    let alloc = rt.alloc();
    let rows: [Change<'_>; 4] = [
        (
            b"Created: x\nKey: (private-key (ecc (q \"Q\")\n (d #44#)))\n",
            b"Key: (a #0A# \"\" 2:b1)",
            b"Created: x\nKey: (a #0A# ## b1)\n",
        ),
        (b"key:a", b"Key: (b)", b"Key: (b)\n"),
        (
            b"# \r\n\r\nA:\r\n b\r\nKEY: (a\r\n \tb)\r\n\r\n# c\nB: d",
            b"Key:((()))",
            b"# \r\n\r\nA:\r\n b\r\nKey: ((()))\n\r\n# c\nB: d",
        ),
        (
            b"Key: a\nA: b\n c\n",
            b"Key: \"1\"",
            b"Key: #31#\nA: b\n c\n",
        ),
    ];
    for (file, other, wanted) in rows {
        assert_eq!(rt; changed(alloc, file, other)?.as_slice(), wanted);
    }
    Ok(())
}

#[test]
fn faults_are_printed(rt: HostRuntime) -> Result<(), Fail> {
    let alloc = rt.alloc();
    let rows = [
        (LinesFault::BadLine(3), "line 3 has no form of a line"),
        (LinesFault::NoKey, "there is no key"),
        (LinesFault::TwoKeys(4), "a second key begins on line 4"),
        (
            LinesFault::BadKey(AdvFault::Short),
            "the key: the expression is cut off",
        ),
        (LinesFault::TooLong, "the key is too long"),
        (LinesFault::NoMemory, "out of memory"),
    ];
    for (fault, text) in rows {
        assert_eq!(rt; format!(in alloc; "{fault}")?.as_str(), text);
    }
    Ok(())
}
