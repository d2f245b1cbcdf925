//! What is read and written over real files and sockets, in a folder of the test's own below the
//! temporary one, which is removed. Begin with `files_of_options_are_read_or_told`.

use crate::conf::{HomeConf, SystemConf};
use crate::kept::write_whole;
use crate::log::{cut, lock, open_log};
use crate::reach::{Found, found_at};
use crate::saying::Voice;
use agent_ports::{ConfFiles, ConfRead};
use std::fs::DirBuilder;
use std::io::{Read, Write};
use std::os::unix::fs::{DirBuilderExt, MetadataExt};
use std::os::unix::net::UnixListener;
use std::test::Fail;
use std::{env, fs, process, thread};

/// A fresh folder of this test's own.
fn own_folder(rt: &HostRuntime, name: &str) -> Result<String, Fail> {
    let temporary = env::temp_dir(rt)?;
    let number = process::id(rt.process());
    let Some(temporary) = temporary.as_path().to_str() else {
        return Err(Fail::new("no text"));
    };
    let folder = format!(in rt.alloc(); "{temporary}/{name}{number}")?;
    DirBuilder::new().mode(0o700).create(rt, &folder)?;
    Ok(folder)
}

/// What a read came to, and how many bytes it gave.
fn outcome(read: &ConfRead) -> (&'static str, usize) {
    match read {
        ConfRead::Found(bytes) => ("found", bytes.len()),
        ConfRead::Absent => ("absent", 0),
        ConfRead::Failed => ("failed", 0),
        ConfRead::NoMemory => ("no memory", 0),
    }
}

#[test]
fn files_of_options_are_read_or_told(rt: HostRuntime) -> Result<(), Fail> {
    let folder = own_folder(&rt, "as_one")?;
    let log = format!(in rt.alloc(); "{folder}/agent.log")?;
    let bytes = vec![in rt.alloc(); b'#'; 65_537]?;
    for (name, len) in [("short", 3usize), ("most", 65_536), ("more", 65_537)] {
        let path = format!(in rt.alloc(); "{folder}/{name}")?;
        fs::write(&rt, &path, bytes.get(..len).unwrap_or(&bytes))?;
    }
    fs::create_dir(&rt, &format!(in rt.alloc(); "{folder}/folder")?)?;
    for (name, named, wanted) in [
        ("short", false, ("found", 3usize)),
        ("short", true, ("found", 3)),
        ("most", false, ("found", 65_536)),
        ("more", false, ("failed", 0)),
        ("folder", false, ("failed", 0)),
        ("none", false, ("absent", 0)),
        ("none", true, ("failed", 0)),
    ] {
        let path = format!(in rt.alloc(); "{folder}/{name}")?;
        let home = if named {
            HomeConf::Named(path)
        } else {
            HomeConf::OfFolder(path)
        };
        let read = SystemConf::new(&rt, &home, Voice::LogAt(&log)).read_home(rt.alloc());
        assert_eq!(rt; (name, outcome(&read)), (name, wanted));
    }
    let nothing = HomeConf::Nothing;
    let read = SystemConf::new(&rt, &nothing, Voice::LogAt(&log)).read_home(rt.alloc());
    assert_eq!(rt; outcome(&read), ("absent", 0));
    // A line for each that failed, with its time.
    let told = fs::read(&rt, &log)?;
    let lines = told
        .split(|byte| *byte == b'\n')
        .filter(|line| line.starts_with(b"20"));
    assert_eq!(rt; lines.count(), 3);
    fs::remove_dir_all(&rt, &folder)?;
    Ok(())
}

#[test]
fn a_file_is_written_whole_or_is_as_it_was(rt: HostRuntime) -> Result<(), Fail> {
    let folder = own_folder(&rt, "as_two")?;
    let path = format!(in rt.alloc(); "{folder}/kept")?;
    for text in [b"one\n".as_slice(), b"another\n"] {
        write_whole(&rt, rt.alloc(), &path, text)?;
        assert_eq!(rt; fs::read(&rt, &path)?.as_slice(), text);
        assert_eq!(rt; fs::metadata(&rt, &path)?.mode() & 0o777, 0o600);
    }
    // No folder gives way, and nothing is left beside it.
    let inner = format!(in rt.alloc(); "{folder}/inner")?;
    fs::create_dir(&rt, &inner)?;
    assert!(rt; write_whole(&rt, rt.alloc(), &inner, b"text").is_err());
    assert_eq!(rt; fs::read_dir(&rt, &folder)?.count(), 2);
    fs::remove_dir_all(&rt, &folder)?;
    Ok(())
}

#[test]
fn a_log_keeps_its_last_lines(rt: HostRuntime) -> Result<(), Fail> {
    let folder = own_folder(&rt, "as_three")?;
    let path = format!(in rt.alloc(); "{folder}/agent.log")?;
    let locked = match lock(&rt, rt.alloc(), &path) {
        Ok(file) => file,
        Err(_) => return Err(Fail::new("no lock")),
    };
    assert!(rt; open_log(&rt, &path)?.try_lock().is_err());
    let mut log = open_log(&rt, &path)?;
    for number in 0..10_000u32 {
        writeln!(log, "line {number} of what was before")?;
    }
    let before = fs::metadata(&rt, &path)?;
    cut(&rt, rt.alloc(), &path);
    let after = fs::metadata(&rt, &path)?;
    assert_eq!(rt; before.ino(), after.ino());
    assert!(rt; after.len() > 99_900 && after.len() <= 100_000);
    let text = fs::read(&rt, &path)?;
    assert!(rt; text.starts_with(b"line ") && text.ends_with(b"line 9999 of what was before\n"));
    // A log that isn't longer stays.
    cut(&rt, rt.alloc(), &path);
    assert_eq!(rt; fs::metadata(&rt, &path)?.len(), after.len());
    drop(locked);
    assert!(rt; open_log(&rt, &path)?.try_lock().is_ok());
    fs::remove_dir_all(&rt, &folder)?;
    Ok(())
}

/// Greets one client with this line, and answers its request so.
fn serve(listener: &UnixListener, greeting: &[u8], answer: &[u8]) {
    let Ok((mut client, _)) = listener.accept() else {
        return;
    };
    let _ = client.write_all(greeting);
    let _ = client.read(&mut [0u8; 8]);
    let _ = client.write_all(answer);
}

#[test]
fn an_agent_greets_and_answers(rt: HostRuntime) -> Result<(), Fail> {
    let folder = own_folder(&rt, "as_four")?;
    let path = format!(in rt.alloc(); "{folder}/S")?;
    assert_eq!(rt; found_at(&rt, &path), Found::Nothing);
    let listener = UnixListener::bind(&rt, &path)?;
    for (greeting, answer, wanted) in [
        (
            b"OK Pleased to meet you\n".as_slice(),
            b"OK\n".as_slice(),
            Found::Agent,
        ),
        (b"OK\n", b"ERR 1\n", Found::Nothing),
        (b"220 mail\n", b"", Found::Nothing),
    ] {
        let (found, ()) = thread::join(
            &rt,
            || found_at(&rt, &path),
            || serve(&listener, greeting, answer),
        );
        assert_eq!(rt; (greeting, found), (greeting, wanted));
    }
    // Nobody accepts this one.
    assert_eq!(rt; found_at(&rt, &path), Found::Silent);
    drop(listener);
    assert_eq!(rt; found_at(&rt, &path), Found::Nothing);
    fs::remove_dir_all(&rt, &folder)?;
    Ok(())
}
