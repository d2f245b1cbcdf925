//! The listener over the system's own sockets, in a folder of the test's own below the temporary
//! one: owners and modes, stops, wrong paths, long waits. They make folders and sockets, and remove
//! them. Begin with `a_client_gets_its_answers_over_the_owners_socket`.

use crate::SocketName::{Extra, Standard};
use crate::accepting::{AcceptFault, limit_waits};
use crate::{BindFault, Looks, SocketEar, SocketListener};
use agent_ports::{Ear, Got, Listener, Next, Sent, Sink, Source};
use std::fs::{DirBuilder, Permissions};
use std::io::{ErrorKind, Read, Write};
use std::os::unix::fs::{DirBuilderExt, MetadataExt, PermissionsExt, chown, symlink};
use std::os::unix::net::{UnixListener, UnixStream};
use std::test::Fail;
use std::time::Duration;
use std::{env, fs, io, process, thread};
use std_link::StreamLink;

/// A path that is this test's own, below the folder for what is temporary.
fn own_path(rt: &HostRuntime, name: &str) -> Result<String, Fail> {
    let temporary = env::temp_dir(rt)?;
    let number = process::id(rt.process());
    let Some(temporary) = temporary.as_path().to_str() else {
        return Err(Fail::new("no text"));
    };
    Ok(format!(in rt.alloc(); "{temporary}/{name}{number}")?)
}

#[test]
fn a_client_gets_its_answers_over_the_owners_socket(rt: HostRuntime) -> Result<(), Fail> {
    let folder = own_path(&rt, "us_one")?;
    let socket = format!(in rt.alloc(); "{folder}/S.gpg-agent")?;
    let listener = SocketListener::bind(&rt, rt.alloc(), &folder, Standard)?;
    let modes = (
        fs::metadata(&rt, &folder)?.mode() & 0o777,
        fs::symlink_metadata(&rt, &socket)?.mode() & 0o777,
    );
    assert_eq!(rt; modes, (0o700, 0o600));
    let mut client = UnixStream::connect(&rt, &socket)?;
    client.write_all(b"NOP\n")?;
    let mut ear = listener.ear();
    let Next::Link(mut link) = listener.next(&mut ear) else {
        return Err(Fail::new("no link"));
    };
    let mut buf = [0u8; 8];
    assert_eq!(rt; link.read(&mut buf), Got::Bytes(4));
    assert_eq!(rt; link.put(b"OK\n"), Sent::All);
    let mut answer = [0u8; 3];
    client.read_exact(&mut answer)?;
    assert_eq!(rt; answer, *b"OK\n");
    // The client goes away: the session reads its end, and its writes fail without a signal.
    drop(client);
    assert_eq!(rt; link.read(&mut buf), Got::End);
    assert_eq!(rt; link.put(b"OK\n"), Sent::Failed { sent: 0 });
    listener.done(link);
    drop(listener);
    assert!(rt; !ear.failed());
    // Neither the socket nor the folder in which it was made is left.
    fs::remove_dir(&rt, &folder)?;
    Ok(())
}

/// What comes behind the clients that were taken.
fn last_of<L: Listener<Ear = SocketEar>>(listener: &L) -> (bool, bool) {
    let mut ear = listener.ear();
    let stopped = match listener.next(&mut ear) {
        Next::Stopped => true,
        Next::Failed => false,
        Next::Link(link) => {
            listener.done(link);
            false
        }
    };
    (stopped, ear.failed())
}

#[test]
fn a_stop_wakes_all_workers_and_lets_each_queued_client_go(rt: HostRuntime) -> Result<(), Fail> {
    let folder = own_path(&rt, "us_two")?;
    let socket = format!(in rt.alloc(); "{folder}/S.gpg-agent")?;
    let listener = SocketListener::bind(&rt, rt.alloc(), &folder, Standard)?;
    let (first, (second, ())) = thread::join(
        &rt,
        || last_of(&listener),
        || thread::join(&rt, || last_of(&listener), || listener.stop()),
    );
    assert_eq!(rt; (first, second), ((true, false), (true, false)));
    drop(listener);
    let listener = SocketListener::bind(&rt, rt.alloc(), &folder, Standard)?;
    let mut clients = Vec::new(rt.alloc());
    for _ in 0..4u32 {
        clients.push(UnixStream::connect(&rt, &socket)?)?;
    }
    listener.stop();
    // No worker is needed for that, and the listener is still there.
    for client in &mut clients {
        client.set_read_timeout(Some(Duration::from_secs(5)))?;
        assert_eq!(rt; client.read(&mut [0u8; 1])?, 0);
    }
    assert!(rt; UnixStream::connect(&rt, &socket).is_err());
    assert_eq!(rt; last_of(&listener), (true, false));
    drop(clients);
    drop(listener);
    fs::remove_dir(&rt, &folder)?;
    Ok(())
}

#[test]
fn a_path_too_long_makes_nothing_and_an_old_file_gives_way(rt: HostRuntime) -> Result<(), Fail> {
    let folder = own_path(&rt, "us_three")?;
    let socket = format!(in rt.alloc(); "{folder}/S.gpg-agent")?;
    let long = format!(in rt.alloc(); "{folder}{}", "x".repeat(rt.alloc(), 100)?)?;
    assert!(rt; SocketListener::bind(&rt, rt.alloc(), &long, Standard).is_err());
    assert!(rt; !fs::exists(&rt, &long)?);
    // A file where the folder should be is left as it is.
    fs::write(&rt, &folder, b"old")?;
    assert!(rt; SocketListener::bind(&rt, rt.alloc(), &folder, Standard).is_err());
    assert_eq!(rt; fs::metadata(&rt, &folder)?.len(), 3);
    fs::remove_file(&rt, &folder)?;
    DirBuilder::new().mode(0o755).create(&rt, &folder)?;
    fs::write(&rt, &socket, b"old")?;
    let first = SocketListener::bind(&rt, rt.alloc(), &folder, Standard)?;
    drop(UnixStream::connect(&rt, &socket)?);
    // Another one takes its place, and keeps it where the first one ends.
    let second = SocketListener::bind(&rt, rt.alloc(), &folder, Standard)?;
    drop(first);
    drop(UnixStream::connect(&rt, &socket)?);
    drop(second);
    fs::remove_dir(&rt, &folder)?;
    Ok(())
}

#[test]
fn an_accept_is_tried_again_unless_the_descriptor_is_wrong(rt: HostRuntime) {
    // Linux's numbers: EINTR, ECONNABORTED; EAGAIN; ENOMEM, ENFILE, EMFILE, EPROTO, ENOBUFS, EPERM; EBADF,
    // EINVAL, ENOTSOCK, EOPNOTSUPP.
    for (number, wanted) in [
        (4, AcceptFault::OfOneClient),
        (103, AcceptFault::OfOneClient),
        (11, AcceptFault::OutOfTime),
        (12, AcceptFault::Passing),
        (23, AcceptFault::Passing),
        (24, AcceptFault::Passing),
        (71, AcceptFault::Passing),
        (105, AcceptFault::Passing),
        (1, AcceptFault::Passing),
        (9, AcceptFault::Lasting),
        (22, AcceptFault::Lasting),
        (88, AcceptFault::Lasting),
        (95, AcceptFault::Lasting),
    ] {
        assert_eq!(rt;
            AcceptFault::of(&io::Error::from_raw_os_error(number)),
            wanted
        );
    }
    // The client's address isn't one.
    let odd = io::Error::from(ErrorKind::InvalidInput);
    assert_eq!(rt; AcceptFault::of(&odd), AcceptFault::Passing);
}

#[test]
fn both_sockets_stand_in_one_folder(rt: HostRuntime) -> Result<(), Fail> {
    let folder = own_path(&rt, "us_four")?;
    let extra = format!(in rt.alloc(); "{folder}/S.gpg-agent.extra")?;
    let standard = SocketListener::bind(&rt, rt.alloc(), &folder, Standard)?;
    fs::write(&rt, &extra, b"old")?;
    let restricted = SocketListener::bind(&rt, rt.alloc(), &folder, Extra)?;
    assert_eq!(rt; fs::symlink_metadata(&rt, &extra)?.mode() & 0o777, 0o600);
    let mut client = UnixStream::connect(&rt, &extra)?;
    client.write_all(b"NOP\n")?;
    let mut ear = restricted.ear();
    let Next::Link(mut link) = restricted.next(&mut ear) else {
        return Err(Fail::new("no link"));
    };
    assert_eq!(rt; link.read(&mut [0u8; 8]), Got::Bytes(4));
    restricted.done(link);
    // The end of one removes its own name alone.
    drop(restricted);
    assert!(rt; !fs::exists(&rt, &extra)?);
    drop(UnixStream::connect(&rt, &format!(in rt.alloc(); "{folder}/S.gpg-agent")?)?);
    drop(standard);
    fs::remove_dir(&rt, &folder)?;
    Ok(())
}

#[test]
fn the_longer_name_has_the_shorter_folder(rt: HostRuntime) -> Result<(), Fail> {
    let folder = own_path(&rt, "us_five")?;
    // A socket's path has at most 107 bytes, and one of these names 11, the other one 17.
    let more = 95usize.saturating_sub(folder.len());
    let folder = format!(in rt.alloc(); "{folder}{}", "x".repeat(rt.alloc(), more)?)?;
    assert!(rt; SocketListener::bind(&rt, rt.alloc(), &folder, Extra).is_err());
    assert!(rt; !fs::exists(&rt, &folder)?);
    drop(SocketListener::bind(&rt, rt.alloc(), &folder, Standard)?);
    fs::remove_dir(&rt, &folder)?;
    Ok(())
}

#[test]
fn the_longest_line_goes_whole_each_way(rt: HostRuntime) -> Result<(), Fail> {
    let folder = own_path(&rt, "us_seven")?;
    let socket = format!(in rt.alloc(); "{folder}/S.gpg-agent")?;
    let listener = SocketListener::bind(&rt, rt.alloc(), &folder, Standard)?;
    // 1,000 bytes and a line feed (Assuan manual, "Server responses").
    let line = format!(in rt.alloc(); "D {}\n", "x".repeat(rt.alloc(), 998)?)?;
    let mut client = UnixStream::connect(&rt, &socket)?;
    client.set_read_timeout(Some(Duration::from_secs(5)))?;
    client.write_all(line.as_bytes())?;
    let Next::Link(mut link) = listener.next(&mut listener.ear()) else {
        return Err(Fail::new("no link"));
    };
    let mut came = Vec::new(rt.alloc());
    let mut buf = [0u8; 1002];
    for _ in 0..line.len() {
        if came.len() >= line.len() {
            break;
        }
        match link.read(&mut buf) {
            Got::Bytes(count) if count <= buf.len() => came.extend_from_slice(&buf[..count])?,
            _ => return Err(Fail::new("no line")),
        }
    }
    assert!(rt; came.as_slice() == line.as_bytes());
    assert_eq!(rt; link.put(line.as_bytes()), Sent::All);
    let mut answer = [0u8; 1001];
    client.read_exact(&mut answer)?;
    assert!(rt; answer.as_slice() == line.as_bytes());
    listener.done(link);
    drop(listener);
    fs::remove_dir(&rt, &folder)?;
    Ok(())
}

/// Why a folder of this mode, and of this user if it is to be another one's, has no socket: none
/// where it has one.
fn fault_in(
    rt: &HostRuntime,
    folder: &str,
    mode: u32,
    owner: Option<u32>,
) -> Result<Option<String>, Fail> {
    fs::set_permissions(rt, folder, Permissions::from_mode(mode))?;
    chown(rt, folder, owner, None)?;
    match SocketListener::bind(rt, rt.alloc(), folder, Standard) {
        Ok(listener) => {
            drop(listener);
            Ok(None)
        }
        Err(fault) => Ok(Some(format!(in rt.alloc(); "{fault}")?)),
    }
}

#[test]
fn a_folder_that_others_may_change_has_no_socket(rt: HostRuntime) -> Result<(), Fail> {
    let folder = own_path(&rt, "us_eight")?;
    DirBuilder::new().mode(0o700).create(&rt, &folder)?;
    // Through a link it is the folder at its end that counts.
    let linked = own_path(&rt, "us_nine")?;
    symlink(&rt, &folder, &linked)?;
    for path in [&folder, &linked] {
        for (mode, wanted) in [
            (0o700, None),
            (0o755, None),
            (
                0o770,
                Some("others may write in the folder HOME (mode 0770): chmod go-w HOME"),
            ),
            (
                0o1777,
                Some("others may write in the folder HOME (mode 1777): chmod go-w HOME"),
            ),
            (0o2700, None),
        ] {
            let fault = fault_in(&rt, path, mode, None)?;
            let said = fault.as_ref().map(String::as_str);
            assert_eq!(rt;
                said,
                with_path(&rt, wanted, &folder)?.as_deref(),
                "mode {mode:o}"
            );
        }
    }
    // Only root may give a folder away.
    if fs::metadata(&rt, &folder)?.uid() == 0 {
        let fault = fault_in(&rt, &folder, 0o700, Some(65_534))?;
        let wanted = Some(
            "the folder HOME belongs to user 65534, and not to user 0: take a folder of your own",
        );
        let said = fault.as_ref().map(String::as_str);
        assert_eq!(rt; said, with_path(&rt, wanted, &folder)?.as_deref());
    }
    // Nothing is left in it.
    fs::remove_file(&rt, &linked)?;
    fs::remove_dir(&rt, &folder)?;
    Ok(())
}

/// The text with the folder's path in place of `HOME`.
fn with_path(rt: &HostRuntime, text: Option<&str>, folder: &str) -> Result<Option<String>, Fail> {
    match text {
        Some(text) => Ok(Some(text.replace(rt.alloc(), "HOME", folder)?)),
        None => Ok(None),
    }
}

#[test]
fn a_start_that_fails_leaves_what_has_the_name(rt: HostRuntime) -> Result<(), Fail> {
    let folder = own_path(&rt, "us_ten")?;
    let socket = format!(in rt.alloc(); "{folder}/S.gpg-agent")?;
    DirBuilder::new().mode(0o700).create(&rt, &folder)?;
    let running = UnixListener::bind(&rt, &socket)?;
    fs::set_permissions(&rt, &folder, Permissions::from_mode(0o777))?;
    let fault = SocketListener::bind(&rt, rt.alloc(), &folder, Standard).err();
    assert!(rt; matches!(fault, Some(BindFault::Folder(_))));
    fs::set_permissions(&rt, &folder, Permissions::from_mode(0o700))?;
    // Each name of a fresh folder is taken.
    for number in 0..1000u32 {
        DirBuilder::new().create(&rt, &format!(in rt.alloc(); "{folder}/.new{number}")?)?;
    }
    let fault = SocketListener::bind(&rt, rt.alloc(), &folder, Standard).err();
    assert!(rt; matches!(fault, Some(BindFault::System(_))));
    drop(UnixStream::connect(&rt, &socket)?);
    drop(running);
    fs::remove_dir_all(&rt, &folder)?;
    // A folder of the socket's name stays too.
    fs::create_dir_all(&rt, &socket)?;
    fs::set_permissions(&rt, &folder, Permissions::from_mode(0o700))?;
    let fault = SocketListener::bind(&rt, rt.alloc(), &folder, Standard).err();
    assert!(rt; matches!(fault, Some(BindFault::System(_))));
    fs::remove_dir(&rt, &socket)?;
    fs::remove_dir(&rt, &folder)?;
    Ok(())
}

#[test]
fn a_client_that_stays_has_its_limits(rt: HostRuntime) -> Result<(), Fail> {
    for (name, read) in [(Standard, None), (Extra, Some(Duration::from_secs(600)))] {
        let (client, other) = UnixStream::pair(&rt)?;
        limit_waits(&client, name);
        assert_eq!(rt; client.write_timeout()?, Some(Duration::from_secs(60)));
        assert_eq!(rt; client.read_timeout()?, read);
        drop(other);
    }
    Ok(())
}

#[test]
fn a_wait_behind_its_limit_is_a_fault(rt: HostRuntime) -> Result<(), Fail> {
    let (client, silent) = UnixStream::pair(&rt)?;
    client.set_write_timeout(Some(Duration::from_millis(20)))?;
    client.set_read_timeout(Some(Duration::from_millis(20)))?;
    let mut link = StreamLink::new(client);
    assert_eq!(rt; link.read(&mut [0u8; 8]), Got::Failed);
    // More than the system keeps for one who reads nothing.
    let much = vec![in rt.alloc(); b'x'; 10_000_000]?;
    match link.put(&much) {
        Sent::Failed { sent } => assert!(rt; sent < much.len()),
        Sent::All => return Err(Fail::new("all was sent")),
    }
    drop(silent);
    Ok(())
}

/// A listener at its own socket in a fresh folder, with the short waits of a test.
fn watched<'a>(rt: &'a HostRuntime, folder: &str) -> Result<SocketListener<'a, HostRuntime>, Fail> {
    let mut listener = SocketListener::bind(rt, rt.alloc(), folder, Standard)?;
    let looks = Looks {
        every: Duration::from_millis(200),
        again: Duration::from_millis(200),
    };
    let file = listener.file(rt.alloc())?;
    listener.watch(looks, file)?;
    Ok(listener)
}

/// What the listener itself asks next, as text.
fn asked<R: std::fs::Files + std::net::Net + std::rt::Clock>(
    alloc: std::alloc::Global,
    listener: &SocketListener<'_, R>,
    ear: &mut SocketEar,
) -> Result<String, Fail> {
    let Next::Link(mut link) = listener.next(ear) else {
        return Err(Fail::new("no link"));
    };
    let mut buf = [0u8; 64];
    let Got::Bytes(count) = link.read(&mut buf) else {
        return Err(Fail::new("no bytes"));
    };
    // It takes its answers, which nobody reads.
    let _ = link.put(b"OK\n");
    listener.done(link);
    Ok(String::from_utf8_lossy(alloc, buf.get(..count).unwrap_or(&buf))?)
}

#[test]
fn a_watched_listener_asks_while_nobody_else_does(rt: HostRuntime) -> Result<(), Fail> {
    let folder = own_path(&rt, "us_eleven")?;
    let socket = format!(in rt.alloc(); "{folder}/S.gpg-agent")?;
    let listener = watched(&rt, &folder)?;
    let mut ear = listener.ear();
    for _ in 0..2u32 {
        let line = asked(rt.alloc(), &listener, &mut ear)?;
        assert_eq!(rt; line.as_str(), "GET_PASSPHRASE --no-ask nobody\nBYE\n");
    }
    // A client that stays silent for longer than the wait is served, and has no such limit.
    let mut client = UnixStream::connect(&rt, &socket)?;
    let Next::Link(mut link) = listener.next(&mut ear) else {
        return Err(Fail::new("no link"));
    };
    let (got, ()) = thread::join(
        &rt,
        || link.read(&mut [0u8; 8]),
        || {
            thread::sleep(&rt, Duration::from_millis(600));
            let _ = client.write_all(b"NOP\n");
        },
    );
    assert_eq!(rt; got, Got::Bytes(4));
    listener.done(link);
    listener.stop();
    assert!(rt; matches!(listener.next(&mut ear), Next::Stopped));
    assert!(rt; !ear.failed());
    drop(listener);
    fs::remove_dir(&rt, &folder)?;
    Ok(())
}

#[test]
fn a_listener_whose_socket_is_lost_forgets_and_fails(rt: HostRuntime) -> Result<(), Fail> {
    let folder = own_path(&rt, "us_twelve")?;
    let socket = format!(in rt.alloc(); "{folder}/S.gpg-agent")?;
    for is_anothers in [false, true] {
        let listener = watched(&rt, &folder)?;
        let mut extra = SocketListener::bind(&rt, rt.alloc(), &folder, Extra)?;
        let looks = Looks {
            every: Duration::from_millis(200),
            again: Duration::from_millis(200),
        };
        extra.watch(looks, listener.file(rt.alloc())?)?;
        fs::remove_file(&rt, &socket)?;
        let other = if is_anothers {
            Some(UnixListener::bind(&rt, &socket)?)
        } else {
            None
        };
        let mut ear = listener.ear();
        let line = asked(rt.alloc(), &listener, &mut ear)?;
        assert_eq!(rt; line.as_str(), "RELOADAGENT\nBYE\n");
        assert!(rt; !ear.failed());
        for faults in 1..3u64 {
            assert!(rt; matches!(listener.next(&mut ear), Next::Failed));
            assert_eq!(rt; ear.faults(), faults);
        }
        // The extra one ends with it, and asks nothing.
        assert_eq!(rt; last_of(&extra), (false, true));
        drop(extra);
        drop(listener);
        // What another has there is left.
        assert_eq!(rt; fs::exists(&rt, &socket)?, is_anothers);
        drop(other);
        let _ = fs::remove_file(&rt, &socket);
    }
    fs::remove_dir(&rt, &folder)?;
    Ok(())
}
