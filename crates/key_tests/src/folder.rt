//! Tests of a folder of key files, on the system's own files: what each call answers, and what else
//! may lie there. Begin with `Asked` and `first_wrong`.

use agent_ports::{Grip, KeyDone, KeyNames, KeyRead, Keys, MAX_KEY_FILE_LEN};
use key_store::FolderKeys;
use std::alloc::{AllocError, Global};
use std::fs;
use std::io::ErrorKind;
use std::os::unix::fs::{MetadataExt, symlink};
use std::test::Fail;

const FOLDER: &str = "home/private-keys-v1.d";

#[derive(Clone, Copy)]
enum Asked<'a> {
    Read(u8),
    List,
    Replace(u8, &'a [u8]),
    Remove(u8),
}

use Asked::{List, Read, Remove, Replace};

fn grip(byte: u8) -> Grip {
    Grip([byte; 20])
}

// What a call answers, as text: the first byte of each grip, or a file's bytes.
fn answer<K: Keys>(alloc: Global, keys: &mut K, asked: Asked) -> Result<String, AllocError> {
    match asked {
        Read(byte) => match keys.read(alloc, &grip(byte)) {
            KeyRead::Found(file) if file.len() > 9 => format!(in alloc; "{} bytes", file.len()),
            KeyRead::Found(file) => Ok(String::from_utf8(file).unwrap_or(String::new(alloc))),
            KeyRead::Absent => String::from_str(alloc, "absent"),
            KeyRead::Failed => String::from_str(alloc, "failed"),
            KeyRead::NoMemory => String::from_str(alloc, "no memory"),
        },
        List => match keys.list(alloc) {
            KeyNames::Names(names) => {
                let mut text = String::new(alloc);
                for name in names.iter() {
                    let next = format!(in alloc; "{:02x} ", name.0[0])?;
                    text.push_str(next.as_str())?;
                }
                Ok(text)
            }
            KeyNames::Failed => String::from_str(alloc, "failed"),
            KeyNames::NoMemory => String::from_str(alloc, "no memory"),
        },
        Replace(byte, file) if file.len() <= MAX_KEY_FILE_LEN => {
            format!(in alloc; "{:?}", keys.replace(alloc, &grip(byte), file))
        }
        Replace(..) => String::from_str(alloc, "too long"),
        Remove(byte) => format!(in alloc; "{:?}", keys.remove(alloc, &grip(byte))),
    }
}

// The first row that is answered otherwise.
fn first_wrong<K: Keys>(
    alloc: Global,
    keys: &mut K,
    rows: &[(Asked, &str)],
) -> Result<Option<String>, AllocError> {
    for (i, (asked, want)) in rows.iter().enumerate() {
        let got = answer(alloc, keys, *asked)?;
        if got.as_str() != *want {
            return Ok(Some(format!(in alloc; "{i}: {got}")?));
        }
    }
    Ok(None)
}

#[test]
fn a_folder_of_keys(rt: HostRuntime) -> Result<(), Fail> {
    let alloc = rt.alloc();
    let _ = fs::remove_dir_all(&rt, "home");
    let mut keys = FolderKeys::new(&rt, alloc, "home")?;
    let no_home = [
        (List, ""),
        (Read(0xAB), "absent"),
        (Remove(0xAB), "Absent"),
        (Replace(0xAB, b"one"), "Failed"),
    ];
    assert_eq!(rt; first_wrong(alloc, &mut keys, &no_home)?, None);
    fs::create_dir(&rt, "home")?;
    let long = vec![in alloc; b'x'; MAX_KEY_FILE_LEN]?;
    let changes = [
        (List, ""),
        (Replace(0xAB, b"one"), "Done"),
        (Replace(0x12, b""), "Done"),
        (Replace(0xAB, b"two"), "Done"),
        (Read(0xAB), "two"),
        (Read(0x12), ""),
        (Replace(0x13, &long), "Done"),
        (Read(0x13), "65536 bytes"),
        (List, "12 13 ab "),
        (Remove(0x12), "Done"),
        (Remove(0x12), "Absent"),
        (Read(0x12), "absent"),
        (List, "13 ab "),
    ];
    assert_eq!(rt; first_wrong(alloc, &mut keys, &changes)?, None);
    let path = "home/private-keys-v1.d/ABABABABABABABABABABABABABABABABABABABAB.key";
    assert_eq!(rt; fs::metadata(&rt, path)?.mode() & 0o777, 0o600);
    assert_eq!(rt; fs::metadata(&rt, FOLDER)?.mode() & 0o777, 0o700);
    fs::remove_dir_all(&rt, "home")?;
    Ok(())
}

#[test]
fn what_else_lies_there(rt: HostRuntime) -> Result<(), Fail> {
    let alloc = rt.alloc();
    let _ = fs::remove_dir_all(&rt, "other");
    fs::create_dir_all(&rt, "other/private-keys-v1.d")?;
    let mut long = vec![in alloc; b'x'; MAX_KEY_FILE_LEN]?;
    long.push(b'x')?;
    let files: [(&str, &[u8]); 7] = [
        ("0101010101010101010101010101010101010101.key", b"key"),
        ("cdcdcdcdcdcdcdcdcdcdcdcdcdcdcdcdcdcdcdcd.key", b"lower"),
        ("CDCDCDCDCDCDCDCDCDCDCDCDCDCDCDCDCDCDCDCD.key", b"upper"),
        ("0101010101010101010101010101010101010101.key.new", b"left"),
        ("010101010101010101010101010101010101010.key", b"short"),
        ("0101010101010101010101010101010101010101", b"no ending"),
        ("0202020202020202020202020202020202020202.key", &long),
    ];
    for (name, bytes) in files {
        let path = format!(in alloc; "other/private-keys-v1.d/{name}")?;
        fs::write(&rt, path.as_str(), bytes)?;
    }
    let folder = "other/private-keys-v1.d/0303030303030303030303030303030303030303.key";
    fs::create_dir(&rt, folder)?;
    let link = "other/private-keys-v1.d/0404040404040404040404040404040404040404.key";
    symlink(&rt, "nowhere", link)?;
    let mut keys = FolderKeys::new(&rt, alloc, "other")?;
    let rows = [
        (List, "01 02 03 04 cd "),
        (Read(0x01), "key"),
        (Read(0xCD), "upper"),
        (Read(0x02), "failed"),
        (Read(0x03), "failed"),
        (Read(0x04), "failed"),
        (Remove(0x03), "Failed"),
        (Replace(0x03, b"key"), "Failed"),
        (Replace(0x01, b"next"), "Done"),
        (Read(0x01), "next"),
    ];
    assert_eq!(rt; first_wrong(alloc, &mut keys, &rows)?, None);
    // What a crash had left is gone, and so is what a replacement that failed had written.
    for byte in [0x01u8, 0x03] {
        let mut path = String::from_str(alloc, "other/private-keys-v1.d/")?;
        for _ in 0..20u8 {
            let digits = format!(in alloc; "{byte:02X}")?;
            path.push_str(digits.as_str())?;
        }
        path.push_str(".key.new")?;
        let left = fs::metadata(&rt, path.as_str())
            .err()
            .map(|error| error.kind());
        assert_eq!(rt; left, Some(ErrorKind::NotFound));
    }
    fs::remove_dir_all(&rt, "other")?;
    Ok(())
}

#[test]
fn a_key_behind_a_link_is_replaced_where_it_lies(rt: HostRuntime) -> Result<(), Fail> {
    let alloc = rt.alloc();
    let _ = fs::remove_dir_all(&rt, "linked");
    fs::create_dir_all(&rt, "linked/private-keys-v1.d")?;
    fs::write(&rt, "linked/elsewhere", b"there")?;
    for (byte, end) in [("01", "../elsewhere"), ("02", "nowhere"), ("03", "..")] {
        let name = byte.repeat(alloc, 20)?;
        let path = format!(in alloc; "linked/private-keys-v1.d/{name}.key")?;
        symlink(&rt, end, path.as_str())?;
    }
    let mut keys = FolderKeys::new(&rt, alloc, "linked")?;
    let rows = [
        (Read(0x01), "there"),
        (Replace(0x01, b"next"), "Done"),
        (Read(0x01), "next"),
        (Remove(0x01), "Failed"),
        (Read(0x01), "next"),
        (Replace(0x02, b"next"), "Failed"),
        (Remove(0x02), "Failed"),
        (Replace(0x03, b"next"), "Failed"),
        (Remove(0x03), "Failed"),
        (List, "01 02 03 "),
    ];
    assert_eq!(rt; first_wrong(alloc, &mut keys, &rows)?, None);
    // The link is one still, and nothing lies beside the file at its end.
    let elsewhere = fs::read(&rt, "linked/elsewhere")?;
    assert_eq!(rt; elsewhere.as_slice(), b"next".as_slice());
    assert!(rt; !fs::exists(&rt, "linked/elsewhere.dogwoodcatch-new")?);
    fs::remove_dir_all(&rt, "linked")?;
    Ok(())
}
