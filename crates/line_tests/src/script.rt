//! Tests of the pinentry that answers by a script: what its rows say to which input, which scripts
//! are refused, and its status. Begin with `ROWS`.

use agent_ports::{MemLink, MemSink, MemSource};
use pinentry_script::{BAD_SCRIPT, run_script};
use std::alloc::{AllocError, Global};
use std::test::Fail;

/// A link that gives these bytes, so many a read; the reads and writes of these numbers fail.
fn link(
    alloc: Global,
    input: &[u8],
    piece: usize,
    failing_reads: Vec<u64>,
    failing_writes: Vec<u64>,
) -> Result<MemLink, AllocError> {
    let source = MemSource::new(Vec::from_slice(alloc, input)?, piece, failing_reads);
    Ok(MemLink::new(source, MemSink::new(alloc, 0, failing_writes)))
}

/// A script, its input, and behind the greeting what it says, with the status.
type Row = (&'static str, &'static str, &'static str, u8);

const ROWS: [Row; 16] = [
    (
        "pid 4711\npin secret\n",
        "GETPIN\nBYE\n",
        "D secret\nOK\nOK closing connection\n",
        0,
    ),
    ("", "", "", 0),
    // Each kind of answer, and the end of the list.
    (
        "cancel\ntimeout\nyes\nno\npin \npin %0A a\n",
        "GETPIN\nGETPIN\nCONFIRM\nCONFIRM\nGETPIN\nGETPIN\nGETPIN\n",
        "ERR 83886179 Operation cancelled <Pinentry>\n\
          ERR 83886142 Timeout <Pinentry>\n\
          OK\n\
          ERR 83886194 Not confirmed <Pinentry>\n\
          OK\n\
          D %0A a\n\
          OK\n\
          ERR 83886179 Operation cancelled <Pinentry>\n",
        0,
    ),
    // An inquiry goes to END or CAN, in any case, whatever stands between.
    (
        "quality abc\nquality \npin x\n",
        "GETPIN\nD 30\n\nBYE\nend\nD 0\n Can now\nBYE\n",
        "INQUIRE QUALITY abc\n\
          INQUIRE QUALITY \n\
          D x\n\
          OK\n\
          OK closing connection\n",
        0,
    ),
    // CONFIRM passes over them, and a list that ends behind them counts as cancelled.
    (
        "quality a\nquality b\nyes\nquality c\n",
        "CONFIRM\nGETPIN\nEND\nCONFIRM\n",
        "OK\n\
          INQUIRE QUALITY c\n\
          ERR 83886179 Operation cancelled <Pinentry>\n\
          ERR 83886179 Operation cancelled <Pinentry>\n",
        0,
    ),
    (
        "quality a\nquality b\n",
        "CONFIRM\n",
        "ERR 83886179 Operation cancelled <Pinentry>\n",
        0,
    ),
    // The input ends within an inquiry.
    ("quality a\n", "GETPIN\nD 1\n", "INQUIRE QUALITY a\n", 0),
    // Other commands, and lines that are none.
    (
        "pin x\npid 12\npid 13\n",
        "\n \t\n# x\nOPTION a=b\nsetdesc a\nSET\nSETTIMEOUT 1\n\tgetinfo pid x\nGETINFO\nGETINFO version\nSE\nFOO\n",
        "OK\nOK\nOK\nOK\nD 12\nOK\n\
          ERR 83886355 Unknown IPC command <Pinentry>\n\
          ERR 83886355 Unknown IPC command <Pinentry>\n\
          ERR 83886355 Unknown IPC command <Pinentry>\n\
          ERR 83886355 Unknown IPC command <Pinentry>\n",
        0,
    ),
    ("", "GETINFO pid\n", "D 0\nOK\n", 0),
    // Options are passed over, and two dashes that end them.
    (
        "pid 12\n",
        "GETINFO -- pid\nGETINFO --x pid\nGETINFO -- -- pid\nGETINFO --pid\n",
        "D 12\nOK\nD 12\nOK\n\
          ERR 83886355 Unknown IPC command <Pinentry>\n\
          ERR 83886355 Unknown IPC command <Pinentry>\n",
        0,
    ),
    // Nothing is read behind BYE.
    ("", "bye now\nGETPIN\n", "OK closing connection\n", 0),
    // Bytes behind the last line feed are dropped.
    ("yes\n", "GETPIN\nGETPIN", "OK\n", 0),
    // A carriage return belongs to a text of the script, and to no line of the input.
    (
        "pin x\r\nquality a\r\nyes\n",
        "GETPIN\r\nGETPIN\nEND\r\n",
        "D x\r\nOK\nINQUIRE QUALITY a\r\nOK\n",
        0,
    ),
    ("pid 0\n", "GETINFO pid\n", "D 0\nOK\n", 0),
    ("", "X", "", 0),
    (
        "no\n",
        "GETPIN\nBYE",
        "ERR 83886194 Not confirmed <Pinentry>\n",
        0,
    ),
];

/// What a script says to this input, and its status.
fn answers(alloc: Global, script: &str, input: &str, piece: usize) -> Result<String, AllocError> {
    let bytes = input.as_bytes();
    let mut link = link(alloc, bytes, piece, Vec::new(alloc), Vec::new(alloc))?;
    let status = run_script(alloc, script.as_bytes(), &mut link);
    let said = String::from_utf8_lossy(alloc, link.written())?;
    format!(in alloc; "{said}{status}")
}

#[test]
fn scripts_answer_as_their_lines_say_in_any_pieces(rt: HostRuntime) -> Result<(), Fail> {
    let alloc = rt.alloc();
    for (script, input, said, status) in ROWS {
        for piece in [1, 7, 4096] {
            let want = format!(in alloc; "OK Pleased to meet you\n{said}{status}")?;
            assert_eq!(rt; answers(alloc, script, input, piece)?, want, "at {script}");
        }
    }
    Ok(())
}

#[test]
fn other_lines_are_refused_before_anything_is_written(rt: HostRuntime) -> Result<(), Fail> {
    let alloc = rt.alloc();
    let mut longest = Vec::from_slice(alloc, b"pin ")?;
    longest.extend_from_slice(&[b'a'; 896])?;
    longest.push(b'\n')?;
    let mut too_long = Vec::from_slice(alloc, b"pin ")?;
    too_long.extend_from_slice(&[b'a'; 897])?;
    too_long.push(b'\n')?;
    let refused: [&[u8]; 16] = [
        b"foo\n",
        b"\n",
        b"Pin x\n",
        b"pinx\n",
        b"pin\n",
        b"quality\n",
        b"pin\tx\n",
        b"cancel \n",
        b"pid\n",
        b"pid 01\n",
        b"pid 1x\n",
        b"pid -1\n",
        b"pid 1\r\n",
        b"yes\r\n",
        b"yes",
        &too_long,
    ];
    for script in refused {
        let mut link = link(alloc, b"BYE\n", 7, Vec::new(alloc), Vec::new(alloc))?;
        assert_eq!(rt;
            run_script(alloc, script, &mut link),
            BAD_SCRIPT,
            "at {script:?}"
        );
        assert_eq!(rt; link.written(), b"".as_slice());
    }
    let mut link = link(alloc, b"GETPIN\n", 7, Vec::new(alloc), Vec::new(alloc))?;
    assert_eq!(rt; run_script(alloc, &longest, &mut link), 0);
    assert_eq!(rt; link.written().len(), 23 + 2 + 896 + 1 + 3);
    Ok(())
}

#[test]
fn a_line_that_is_too_long_and_a_fault_end_the_session(rt: HostRuntime) -> Result<(), Fail> {
    let alloc = rt.alloc();
    let long = [b'a'; 1002];
    let mut too_long = link(alloc, &long, 4096, Vec::new(alloc), Vec::new(alloc))?;
    assert_eq!(rt; run_script(alloc, b"", &mut too_long), 7);
    assert_eq!(rt; too_long.written(), b"OK Pleased to meet you\n".as_slice());
    let mut unread = link(
        alloc,
        b"GETPIN\nBYE\n",
        7,
        vec![in alloc; 1u64]?,
        Vec::new(alloc),
    )?;
    assert_eq!(rt; run_script(alloc, b"yes\n", &mut unread), 3);
    assert_eq!(rt;
        unread.written(),
        b"OK Pleased to meet you\nOK\n".as_slice()
    );
    for (failing, written) in [
        (0, b"".as_slice()),
        (1, b"OK Pleased to meet you\n".as_slice()),
        (2, b"OK Pleased to meet you\nD x\n".as_slice()),
    ] {
        let failing = vec![in alloc; failing]?;
        let mut unwritten = link(alloc, b"GETPIN\nBYE\n", 7, Vec::new(alloc), failing)?;
        assert_eq!(rt; run_script(alloc, b"pin x\n", &mut unwritten), 4);
        assert_eq!(rt; unwritten.written(), written);
    }
    Ok(())
}
