//! Whether an agent answers at a socket: its greeting, and its answer to NOP (Assuan manual, "server
//! responses", "client requests"). It connects there. Begin with `answers`.

use std::io;
use std::io::{ErrorKind, Read, Write};
use std::net::Net;
use std::os::unix::net::UnixStream;
use std::time::Duration;

/// How many seconds an agent has for each of them.
const ANSWER_SECONDS: u64 = 2;

/// What is at a socket.
#[derive(Clone, Copy, Debug, PartialEq, Eq)]
pub enum Found {
    /// An agent, which answers.
    Agent,
    /// Somebody who takes clients and says nothing in time, as an agent does all of whose workers
    /// have clients.
    Silent,
    /// Nobody, or somebody who says something else.
    Nothing,
}

/// Whether an agent is there. One that is silent counts as one: a second one would take its socket.
pub fn answers(rt: &impl Net, path: &str) -> bool {
    found_at(rt, path) != Found::Nothing
}

/// What is at this path.
pub fn found_at(rt: &impl Net, path: &str) -> Found {
    let Ok(mut stream) = UnixStream::connect(rt, path) else {
        return Found::Nothing;
    };
    match is_agent(&mut stream) {
        Ok(true) => Found::Agent,
        Ok(false) => Found::Nothing,
        Err(error) if matches!(error.kind(), ErrorKind::WouldBlock | ErrorKind::TimedOut) => {
            Found::Silent
        }
        Err(_) => Found::Nothing,
    }
}

fn is_agent(stream: &mut UnixStream) -> io::Result<bool> {
    let limit = Some(Duration::from_secs(ANSWER_SECONDS));
    stream.set_read_timeout(limit)?;
    stream.set_write_timeout(limit)?;
    if !takes_ok(stream)? {
        return Ok(false);
    }
    stream.write_all(b"NOP\n")?;
    if !takes_ok(stream)? {
        return Ok(false);
    }
    let _ = stream.write_all(b"BYE\n");
    Ok(true)
}

/// Whether the next line is an OK. An agent writes a line at a time.
fn takes_ok(stream: &mut UnixStream) -> io::Result<bool> {
    let mut line = [0u8; 1002];
    for _ in 0..line.len() {
        match stream.read(&mut line) {
            Ok(_) => return Ok(line.starts_with(b"OK")),
            Err(error) if error.kind() == ErrorKind::Interrupted => {}
            Err(error) => return Err(error),
        }
    }
    Ok(false)
}
