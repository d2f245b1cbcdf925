//! Tests of the trust list's file, on the system's own files: read, made and replaced, also where
//! another program changes it in between. Begin with `first_wrong` and `Beside`.

use agent_ports::{TrustDone, TrustFile, TrustRead};
use key_store::FolderTrust;
use std::alloc::{AllocError, Global};
use std::fs;
use std::fs::OpenOptions;
use std::io::Write;
use std::os::unix::fs::{MetadataExt, symlink};
use std::test::Fail;
use std::time::UNIX_EPOCH;

#[derive(Clone, Copy)]
enum Asked<'a> {
    Read,
    Replace(&'a [u8]),
}

use Asked::{Read, Replace};

// What a call answers, as text: a short file's bytes, or how many there are.
fn answer<T: TrustFile>(alloc: Global, trust: &mut T, asked: Asked) -> Result<String, AllocError> {
    match asked {
        Read => match trust.read(alloc) {
            TrustRead::Found(file) if file.len() > 9 => format!(in alloc; "{} bytes", file.len()),
            TrustRead::Found(file) => Ok(String::from_utf8(file).unwrap_or(String::new(alloc))),
            TrustRead::Absent => String::from_str(alloc, "absent"),
            TrustRead::Failed => String::from_str(alloc, "failed"),
            TrustRead::NoMemory => String::from_str(alloc, "no memory"),
        },
        Replace(file) => {
            let done = trust.replace(alloc, file);
            format!(in alloc; "{done:?}")
        }
    }
}

// The first row that is answered otherwise.
fn first_wrong<T: TrustFile>(
    alloc: Global,
    trust: &mut T,
    rows: &[(Asked, &str)],
) -> Result<Option<String>, AllocError> {
    for (i, (asked, want)) in rows.iter().enumerate() {
        let got = answer(alloc, trust, *asked)?;
        if got.as_str() != *want {
            return Ok(Some(format!(in alloc; "{i}: {got}")?));
        }
    }
    Ok(None)
}

#[test]
fn a_list_that_is_made_and_replaced(rt: HostRuntime) -> Result<(), Fail> {
    let alloc = rt.alloc();
    let _ = fs::remove_dir_all(&rt, "trusting");
    let mut trust = FolderTrust::new(&rt, alloc, "trusting")?;
    let no_home = [(Read, "absent"), (Replace(b"one\n"), "Failed")];
    assert_eq!(rt; first_wrong(alloc, &mut trust, &no_home)?, None);
    fs::create_dir(&rt, "trusting")?;
    // What a crash left, and a longest file.
    fs::write(&rt, "trusting/trustlist.txt.new", b"left")?;
    let long = vec![in alloc; b'x'; 65_536]?;
    let longer = vec![in alloc; b'x'; 65_537]?;
    let rows = [
        (Read, "absent"),
        (Replace(b"one\n"), "Done"),
        (Read, "one\n"),
        (Replace(b"no end"), "Done"),
        (Read, "no end"),
        (Replace(&longer), "Failed"),
        (Read, "no end"),
        (Replace(&long), "Done"),
        (Read, "65536 bytes"),
        (Replace(b""), "Done"),
        (Read, ""),
    ];
    assert_eq!(rt; first_wrong(alloc, &mut trust, &rows)?, None);
    let mode = fs::metadata(&rt, "trusting/trustlist.txt")?.mode() & 0o777;
    assert_eq!(rt; mode, 0o600);
    let mode = fs::metadata(&rt, "trusting/trustlist.lock")?.mode() & 0o777;
    assert_eq!(rt; mode, 0o600);
    assert!(rt; !fs::exists(&rt, "trusting/trustlist.txt.new")?);
    fs::remove_dir_all(&rt, "trusting")?;
    Ok(())
}

#[test]
fn what_else_has_the_name_of_the_lock(rt: HostRuntime) -> Result<(), Fail> {
    let alloc = rt.alloc();
    let _ = fs::remove_dir_all(&rt, "shutting");
    fs::create_dir_all(&rt, "shutting/trustlist.lock")?;
    let mut trust = FolderTrust::new(&rt, alloc, "shutting")?;
    let refused = [(Read, "absent"), (Replace(b"one\n"), "Failed")];
    // A folder.
    assert_eq!(rt; first_wrong(alloc, &mut trust, &refused)?, None);
    fs::remove_dir(&rt, "shutting/trustlist.lock")?;
    // A link, to nothing and to a file. Neither is opened.
    symlink(&rt, "elsewhere", "shutting/trustlist.lock")?;
    assert_eq!(rt; first_wrong(alloc, &mut trust, &refused)?, None);
    assert!(rt; !fs::exists(&rt, "shutting/elsewhere")?);
    fs::write(&rt, "shutting/elsewhere", b"there\n")?;
    assert_eq!(rt; first_wrong(alloc, &mut trust, &refused)?, None);
    fs::remove_file(&rt, "shutting/trustlist.lock")?;
    // A file that was there stays as it is.
    fs::write(&rt, "shutting/trustlist.lock", b"left")?;
    let made = [(Replace(b"one\n"), "Done"), (Read, "one\n")];
    assert_eq!(rt; first_wrong(alloc, &mut trust, &made)?, None);
    let left = fs::read(&rt, "shutting/trustlist.lock")?;
    assert_eq!(rt; left.as_slice(), b"left".as_slice());
    fs::remove_dir_all(&rt, "shutting")?;
    Ok(())
}

#[test]
fn what_else_has_the_name_of_the_list(rt: HostRuntime) -> Result<(), Fail> {
    let alloc = rt.alloc();
    let _ = fs::remove_dir_all(&rt, "distrusting");
    fs::create_dir_all(&rt, "distrusting/trustlist.txt")?;
    let mut trust = FolderTrust::new(&rt, alloc, "distrusting")?;
    // A folder is neither read nor replaced.
    let folder = [(Read, "failed"), (Replace(b"one\n"), "Failed")];
    assert_eq!(rt; first_wrong(alloc, &mut trust, &folder)?, None);
    assert!(rt; !fs::exists(&rt, "distrusting/trustlist.txt.new")?);
    fs::remove_dir(&rt, "distrusting/trustlist.txt")?;
    // A link is followed, and one that leads nowhere is a fault. A new list takes the place of the
    // file at its end.
    symlink(&rt, "elsewhere", "distrusting/trustlist.txt")?;
    let nowhere = [(Read, "failed"), (Replace(b"one\n"), "Failed")];
    assert_eq!(rt; first_wrong(alloc, &mut trust, &nowhere)?, None);
    fs::write(&rt, "distrusting/elsewhere", b"there\n")?;
    let link = [
        (Read, "there\n"),
        (Replace(b"here\n"), "Done"),
        (Read, "here\n"),
    ];
    assert_eq!(rt; first_wrong(alloc, &mut trust, &link)?, None);
    let linked = fs::read(&rt, "distrusting/elsewhere")?;
    assert_eq!(rt; linked.as_slice(), b"here\n".as_slice());
    let stays = fs::symlink_metadata(&rt, "distrusting/trustlist.txt")?.is_symlink();
    assert!(rt; stays && !fs::exists(&rt, "distrusting/elsewhere.dogwoodcatch-new")?);
    // A longer file isn't cut.
    let longer = vec![in alloc; b'x'; 65_537]?;
    fs::write(&rt, "distrusting/trustlist.txt", &longer)?;
    assert_eq!(rt; first_wrong(alloc, &mut trust, &[(Read, "failed")])?, None);
    fs::remove_dir_all(&rt, "distrusting")?;
    Ok(())
}

// What another program does to the list between a read and the change that follows it.
#[derive(Clone, Copy, Debug)]
enum Beside {
    Nothing,
    Appends,
    Rewrites,
    Replaces,
    Removes,
    Links,
    Makes,
}

const LIST: &str = "watched/trustlist.txt";

fn change_list(rt: &HostRuntime, beside: Beside) -> Result<(), Fail> {
    match beside {
        Beside::Nothing => {}
        Beside::Appends => {
            let mut file = OpenOptions::new().append(true).open(rt, LIST)?;
            file.write_all(b" two")?;
        }
        // The file is the same one, and as long.
        Beside::Rewrites => {
            let mut file = OpenOptions::new().write(true).open(rt, LIST)?;
            file.write_all(b"six")?;
            file.set_modified(UNIX_EPOCH)?;
        }
        Beside::Replaces => {
            fs::write(rt, "watched/other", b"one")?;
            fs::rename(rt, "watched/other", LIST)?;
        }
        Beside::Removes => fs::remove_file(rt, LIST)?,
        Beside::Links => {
            fs::rename(rt, LIST, "watched/moved")?;
            fs::write(rt, "watched/other", b"far")?;
            symlink(rt, "other", LIST)?;
        }
        Beside::Makes => fs::write(rt, LIST, b"made")?,
    }
    Ok(())
}

// What a change comes to, what the list is then, and what the next change comes to. As in a daemon
// each call is one of a new value, which is handed what the others found.
fn changed_beside(rt: &HostRuntime, beside: Beside) -> Result<String, Fail> {
    let alloc = rt.alloc();
    let _ = fs::remove_dir_all(rt, "watched");
    fs::create_dir(rt, "watched")?;
    if !matches!(beside, Beside::Makes) {
        fs::write(rt, LIST, b"one")?;
    }
    let mut text = String::new(alloc);
    let mut trust = FolderTrust::new(rt, alloc, "watched")?;
    let _ = answer(alloc, &mut trust, Read)?;
    change_list(rt, beside)?;
    for asked in [Replace(b"new"), Read, Replace(b"new")] {
        trust = FolderTrust::found_before(rt, alloc, "watched", trust.found())?;
        let next = answer(alloc, &mut trust, asked)?;
        text.push_str(next.as_str())?;
        text.push_str(" ")?;
    }
    if fs::exists(rt, "watched/trustlist.txt.new")? {
        text.push_str("and a leftover")?;
    }
    fs::remove_dir_all(rt, "watched")?;
    Ok(text)
}

#[test]
fn a_list_that_changed_since_it_was_read_stays(rt: HostRuntime) -> Result<(), Fail> {
    for (beside, want) in [
        (Beside::Nothing, "Done new Done "),
        (Beside::Appends, "Failed one two Done "),
        (Beside::Rewrites, "Failed six Done "),
        (Beside::Replaces, "Failed one Done "),
        (Beside::Removes, "Failed absent Done "),
        (Beside::Links, "Failed far Done "),
        (Beside::Makes, "Failed made Done "),
    ] {
        let text = changed_beside(&rt, beside)?;
        assert_eq!(rt; text.as_str(), want, "{beside:?}");
    }
    Ok(())
}
