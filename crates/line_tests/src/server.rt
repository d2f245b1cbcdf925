//! Tests of a server's side of the protocol: which lines are written, how much of them goes where a
//! write fails, and what requests and inquiries come to in any pieces. Begin with `SAYINGS` and
//! `ASKINGS`.

ghost use Rattle.std.specs.Prelude.{◌≡◌};
ghost use Rattle.assuan_server.specs.Connections.{IsOpen};

use agent_ports::{MemLink, MemSink, MemSource, Sent};
use assuan_line::{BUDGET, Took};
use assuan_server::{Code, Conn, Dropped, Inquired, InquiredSecret, Origin};
use std::alloc::{AllocError, Global};
use std::test::Fail;

/// A line that a server writes.
#[derive(Clone, Copy)]
enum Said {
    Greeting,
    Ok,
    Closing,
    Status,
    Comment,
    Data(&'static str),
    LastData(&'static str),
    Err(Code, Origin),
}

/// What a server reads: the next request, or what an inquiry comes to and the request after it.
#[derive(Clone, Copy)]
enum Asked {
    Request,
    /// An inquiry for at most so many bytes.
    Bytes(usize),
    Secret,
    /// An inquiry for 3 bytes that are dropped.
    Dropped,
}

/// How many bytes a write that fails puts, and which writes fail.
type Failing = (usize, &'static [u64]);

const NEVER: Failing = (0, &[]);

/// What is said, which writes fail, what is written, and what of it went. In a text `{part*3}`
/// stands for three times that part.
type Saying = (&'static [Said], Failing, &'static str, &'static str);

/// Every line that is used, and writes that fail.
const SAYINGS: [Saying; 4] = [
    (
        &[
            Said::Greeting,
            Said::Ok,
            Said::Closing,
            Said::Status,
            Said::Comment,
            Said::Data(""),
            Said::Data("é"),
            Said::Data("{\n*400}"),
            Said::LastData(""),
            Said::LastData("ab%"),
            Said::LastData("{\n*400}"),
        ],
        NEVER,
        "OK Pleased to meet you\nOK\nOK closing connection\nS INQUIRE_MAXLEN 255\n# NOP\nD %C3%A9\nD {%0A*332}\nD {%0A*68}\nOK\nD ab%25\nOK\nD {%0A*332}\nD {%0A*68}\nOK\n",
        "all all all all all all all all all all all ",
    ),
    (
        &[
            Said::Err(Code::General, Origin::Agent),
            Said::Err(Code::BadSecKey, Origin::Agent),
            Said::Err(Code::Checksum, Origin::Agent),
            Said::Err(Code::BadPass, Origin::Agent),
            Said::Err(Code::NoSecKey, Origin::Agent),
            Said::Err(Code::NoData, Origin::Agent),
            Said::Err(Code::NotSupported, Origin::Agent),
            Said::Err(Code::Timeout, Origin::Agent),
            Said::Err(Code::Timeout, Origin::Pinentry),
            Said::Err(Code::InvSexp, Origin::Agent),
            Said::Err(Code::NoPinentry, Origin::Agent),
            Said::Err(Code::NotTrusted, Origin::Agent),
            Said::Err(Code::Cancelled, Origin::Agent),
            Said::Err(Code::Cancelled, Origin::Pinentry),
            Said::Err(Code::NotConfirmed, Origin::Agent),
            Said::Err(Code::NotConfirmed, Origin::Pinentry),
            Said::Err(Code::UnknownOption, Origin::Agent),
            Said::Err(Code::Forbidden, Origin::Agent),
            Said::Err(Code::LineTooLong, Origin::Agent),
            Said::Err(Code::TooMuch, Origin::Agent),
            Said::Err(Code::Unexpected, Origin::Agent),
            Said::Err(Code::UnknownCommand, Origin::Agent),
            Said::Err(Code::UnknownCommand, Origin::Pinentry),
            Said::Err(Code::Parameter, Origin::Agent),
            Said::Err(Code::FileExists, Origin::Agent),
            Said::Err(Code::NoMemory, Origin::Agent),
        ],
        NEVER,
        ERROR_LINES,
        "all all all all all all all all all all all all all all all all all all all all all all all all all all ",
    ),
    (
        &[Said::Data("{a*1000}"), Said::Ok],
        (5, &[1]),
        "D {a*998}\nD aa\nOK\n",
        "1006 all ",
    ),
    (
        &[Said::LastData("ab"), Said::LastData("{a*1000}")],
        (2, &[0, 3]),
        "{D *2}{a*998}\nD aa\nOK",
        "2 1008 ",
    ),
];

const ERROR_LINES: &str = "\
ERR 67108865 General error <GPG Agent>\n\
ERR 67108871 Bad secret key <GPG Agent>\n\
ERR 67108874 Checksum error <GPG Agent>\n\
ERR 67108875 Bad passphrase <GPG Agent>\n\
ERR 67108881 No secret key <GPG Agent>\n\
ERR 67108922 No data <GPG Agent>\n\
ERR 67108924 Not supported <GPG Agent>\n\
ERR 67108926 Timeout <GPG Agent>\n\
ERR 83886142 Timeout <Pinentry>\n\
ERR 67108947 Invalid S-expression <GPG Agent>\n\
ERR 67108950 No pinentry <GPG Agent>\n\
ERR 67108962 Not trusted <GPG Agent>\n\
ERR 67108963 Operation cancelled <GPG Agent>\n\
ERR 83886179 Operation cancelled <Pinentry>\n\
ERR 67108978 Not confirmed <GPG Agent>\n\
ERR 83886194 Not confirmed <Pinentry>\n\
ERR 67109038 Unknown option <GPG Agent>\n\
ERR 67109115 Forbidden <GPG Agent>\n\
ERR 67109127 Line passed to IPC too long <GPG Agent>\n\
ERR 67109137 Too much data for IPC layer <GPG Agent>\n\
ERR 67109138 Unexpected IPC command <GPG Agent>\n\
ERR 67109139 Unknown IPC command <GPG Agent>\n\
ERR 83886355 Unknown IPC command <Pinentry>\n\
ERR 67109144 IPC parameter error <GPG Agent>\n\
ERR 67141667 File exists <GPG Agent>\n\
ERR 67141718 Cannot allocate memory <GPG Agent>\n";

/// What is asked, what the client sends, and what comes of it.
type Asking = (Asked, &'static str, &'static str);

const ASKINGS: [Asking; 37] = [
    (Asked::Request, "NOP\nBYE\n", "NOP"),
    (
        Asked::Request,
        "\n \t \r\n# no\n\t#no\n  NOP #\n",
        "  NOP #",
    ),
    (Asked::Request, "#\nD abc\n", "D abc"),
    (Asked::Request, "# no\n", "end"),
    (Asked::Request, "", "end"),
    (Asked::Bytes(255), "D sec\nD ret\nEND\nNOP\n", "secret, NOP"),
    (
        Asked::Bytes(255),
        "d sec%25ret\nD\n# no\n \t\n\nend of it\nNOP\n",
        "sec%ret, NOP",
    ),
    (Asked::Bytes(0), "END\nNOP\n", ", NOP"),
    (Asked::Bytes(0), "D \nEND\nNOP\n", ", NOP"),
    (Asked::Bytes(255), "D  a+b\nEnd\n", " a+b, end"),
    (Asked::Bytes(3), "D abc\nEND\nNOP\n", "abc, NOP"),
    (Asked::Bytes(3), "D abc\nD d\nEND\nNOP\n", "too much, NOP"),
    (Asked::Bytes(3), "D abc\nD d\nCAN\nNOP\n", "cancelled, NOP"),
    (Asked::Bytes(255), "D abc\ncan now\nNOP\n", "cancelled, NOP"),
    (Asked::Bytes(255), "D abc\nBYE\nNOP\n", "unexpected, NOP"),
    (Asked::Bytes(255), "Da\nNOP\n", "unexpected, NOP"),
    (Asked::Bytes(255), "D\tabc\nNOP\n", "unexpected, NOP"),
    (Asked::Bytes(255), " END\nNOP\n", "unexpected, NOP"),
    (Asked::Bytes(255), " # no\nNOP\n", "unexpected, NOP"),
    (Asked::Bytes(255), "ENDED\nNOP\n", "unexpected, NOP"),
    (Asked::Bytes(255), "D abc\nEND", "ended"),
    (Asked::Bytes(255), "D {a*999}\nEND\n", "too long"),
    (Asked::Secret, "D \nEND\n", "0 bytes, end"),
    (Asked::Secret, "D {a*255}\nEND\n", "255 bytes, end"),
    (Asked::Secret, "D {a*256}\nEND\n", "too much, end"),
    (Asked::Secret, "D {a*255}\nD b\nEND\n", "too much, end"),
    (Asked::Secret, "D {a*256}\nCAN\n", "cancelled, end"),
    (Asked::Secret, "D {a*255}\nNOP\n", "unexpected, end"),
    (Asked::Secret, "D {a*255}\nEND", "ended"),
    (Asked::Dropped, "END\n", "done, end"),
    (Asked::Dropped, "D a%0A\n# x\nD b\nend x\n", "done, end"),
    (Asked::Dropped, "D abc\nD d\nEND\n", "too much, end"),
    (Asked::Dropped, "D abcd\nCAN\n", "cancelled, end"),
    (Asked::Dropped, "D abcd\nNOP\n", "unexpected, end"),
    (Asked::Dropped, "D a\n", "ended"),
    (
        Asked::Dropped,
        "D abcd\nD abcd\nD a\nD\nEND\n",
        "too much, end",
    ),
    (Asked::Dropped, "\n \nEND", "ended"),
];

/// A text with its repeated parts.
fn text_of(alloc: Global, text: &str) -> Result<String, AllocError> {
    let mut all = String::new(alloc);
    for part in text.split('{') {
        let (repeated, plain) = part.split_once('}').unwrap_or(("", part));
        let (what, count) = repeated.split_once('*').unwrap_or(("", "0"));
        for _ in 0..count.parse::<usize>().unwrap_or(0) {
            all.push_str(what)?;
        }
        all.push_str(plain)?;
    }
    Ok(all)
}

/// A link that gives this text, in pieces of at most `piece` bytes.
fn link(alloc: Global, sent: &str, piece: usize, failing: Failing) -> Result<MemLink, AllocError> {
    let bytes = text_of(alloc, sent)?.into_bytes();
    let (cut, writes) = failing;
    let sink = MemSink::new(alloc, cut, Vec::from_slice(alloc, writes)?);
    Ok(MemLink::new(MemSource::new(bytes, piece, Vec::new(alloc)), sink))
}

/// Writes a line, and gives what of it went.
fn say(alloc: Global, link: &mut MemLink, said: Said) -> Result<Sent, AllocError> {
    let mut conn = Conn::new(alloc, link, BUDGET);
    Ok(match said {
        Said::Greeting => conn.greet(),
        Said::Ok => conn.ok(b""),
        Said::Closing => conn.ok(b"closing connection"),
        Said::Status => conn.status(b"INQUIRE_MAXLEN", b"255"),
        Said::Comment => conn.comment(b"NOP"),
        Said::Data(text) => conn.data(text_of(alloc, text)?.as_bytes()),
        Said::LastData(text) => conn.last_data(text_of(alloc, text)?.as_bytes()),
        Said::Err(code, origin) => conn.err(code, origin),
    })
}

/// What a row writes, and what of each line went.
fn sayings(
    alloc: Global,
    said: &'static [Said],
    failing: Failing,
) -> Result<(String, String), AllocError> {
    let mut link = link(alloc, "", 1, failing)?;
    let mut went = String::new(alloc);
    for said in said.iter() {
        let part = match say(alloc, &mut link, *said)? {
            Sent::All => String::from_str(alloc, "all ")?,
            Sent::Failed { sent } => format!(in alloc; "{sent} ")?,
        };
        went.push_str(&part)?;
    }
    Ok((String::from_utf8_lossy(alloc, link.written())?, went))
}

#[test]
fn lines_are_written_or_what_of_them_went_is_counted(rt: HostRuntime) -> Result<(), Fail> {
    let alloc = rt.alloc();
    for (said, failing, written, went) in SAYINGS {
        let got = sayings(alloc, said, failing)?;
        assert_eq!(rt; got.0, text_of(alloc, written)?);
        assert_eq!(rt; got.1.as_str(), went);
    }
    Ok(())
}

/// The next request, or why there is none.
fn next_request(alloc: Global, conn: &mut Conn<'_, MemLink>) -> Result<String, AllocError>
    requires { IsOpen conn.old }
{
    let text = match conn.next_request() {
        Took::Line(line) => return Ok(String::from_utf8_lossy(alloc, line.bytes())?),
        Took::TooLong => "too long",
        Took::End => "end",
        Took::Spent => "spent",
        Took::ReadFault => "read fault",
    };
    Ok(String::from_str(alloc, text)?)
}

/// A connection with a ring or, as where there is no memory for one, without.
fn conn_over<'a>(alloc: Global, link: &'a mut MemLink, ring: bool) -> Conn<'a, MemLink>
    ensures { IsOpen result }
{
    if ring {
        Conn::new(alloc, link, BUDGET)
    } else {
        Conn::without_memory(link, BUDGET)
    }
}

/// What came, and the request after it.
fn with_next(alloc: Global, came: &str, conn: &mut Conn<'_, MemLink>) -> Result<String, Fail>
    requires { IsOpen conn.old }
{
    let next = next_request(alloc, conn)?;
    Ok(format!(in alloc; "{came}, {next}")?)
}

fn inquire(alloc: Global, conn: &mut Conn<'_, MemLink>, limit: usize) -> Result<String, Fail>
    requires { IsOpen conn.old }
{
    let came = match conn.inquire(alloc, b"PASSPHRASE", b"", limit) {
        Inquired::Data(bytes) => {
            let text = String::from_utf8(bytes).map_err(|_| "no text")?;
            return with_next(alloc, &text, conn);
        }
        Inquired::Cancelled => return with_next(alloc, "cancelled", conn),
        Inquired::TooMuch => return with_next(alloc, "too much", conn),
        Inquired::Unexpected => return with_next(alloc, "unexpected", conn),
        Inquired::NoMemory => return with_next(alloc, "no memory", conn),
        Inquired::WriteFault => return with_next(alloc, "write fault", conn),
        Inquired::Ended => "ended",
        Inquired::TooLong => "too long",
        Inquired::Spent => "spent",
        Inquired::ReadFault => "read fault",
    };
    Ok(String::from_str(alloc, came)?)
}

fn inquire_secret(alloc: Global, conn: &mut Conn<'_, MemLink>) -> Result<String, Fail>
    requires { IsOpen conn.old }
{
    let came = match conn.inquire_secret(b"PASSPHRASE", b"please") {
        InquiredSecret::Secret(secret) => {
            let text = format!(in alloc; "{} bytes", secret.bytes().len())?;
            return with_next(alloc, &text, conn);
        }
        InquiredSecret::Cancelled => return with_next(alloc, "cancelled", conn),
        InquiredSecret::TooMuch => return with_next(alloc, "too much", conn),
        InquiredSecret::Unexpected => return with_next(alloc, "unexpected", conn),
        InquiredSecret::WriteFault => return with_next(alloc, "write fault", conn),
        InquiredSecret::Ended => "ended",
        InquiredSecret::TooLong => "too long",
        InquiredSecret::Spent => "spent",
        InquiredSecret::ReadFault => "read fault",
    };
    Ok(String::from_str(alloc, came)?)
}

fn inquire_drop(alloc: Global, conn: &mut Conn<'_, MemLink>) -> Result<String, Fail>
    requires { IsOpen conn.old }
{
    let came = match conn.inquire_drop(b"PINENTRY_LAUNCHED", b"9", 3) {
        Dropped::Done => return with_next(alloc, "done", conn),
        Dropped::Cancelled => return with_next(alloc, "cancelled", conn),
        Dropped::TooMuch => return with_next(alloc, "too much", conn),
        Dropped::Unexpected => return with_next(alloc, "unexpected", conn),
        Dropped::WriteFault => return with_next(alloc, "write fault", conn),
        Dropped::Ended => "ended",
        Dropped::TooLong => "too long",
        Dropped::Spent => "spent",
        Dropped::ReadFault => "read fault",
    };
    Ok(String::from_str(alloc, came)?)
}

/// What comes of a row's question.
fn ask(alloc: Global, asked: Asked, conn: &mut Conn<'_, MemLink>) -> Result<String, Fail>
    requires { IsOpen conn.old }
{
    match asked {
        Asked::Request => Ok(next_request(alloc, conn)?),
        Asked::Bytes(limit) => inquire(alloc, conn, limit),
        Asked::Secret => inquire_secret(alloc, conn),
        Asked::Dropped => inquire_drop(alloc, conn),
    }
}

/// What is written for a question, and what comes of it.
fn asked_over(alloc: Global, asked: Asked, link: &mut MemLink, ring: bool) -> Result<String, Fail> {
    let came = ask(alloc, asked, &mut conn_over(alloc, link, ring))?;
    let written = String::from_utf8_lossy(alloc, link.written())?;
    Ok(format!(in alloc; "{written}{came}")?)
}

/// The line that asks, where one does.
fn line_of(asked: Asked) -> &'static str {
    match asked {
        Asked::Request => "",
        Asked::Bytes(_) => "INQUIRE PASSPHRASE\n",
        Asked::Secret => "INQUIRE PASSPHRASE please\n",
        Asked::Dropped => "INQUIRE PINENTRY_LAUNCHED 9\n",
    }
}

#[test]
fn requests_and_inquiries_are_read_in_any_pieces(rt: HostRuntime) -> Result<(), Fail> {
    let alloc = rt.alloc();
    for (asked, sent, came) in ASKINGS {
        let want = format!(in alloc; "{}{came}", line_of(asked))?;
        for (piece, ring) in [
            (1, true),
            (7, true),
            (4096, true),
            (1, false),
            (4096, false),
        ] {
            let got = asked_over(alloc, asked, &mut link(alloc, sent, piece, NEVER)?, ring)?;
            assert_eq!(rt; got, want, "in pieces of {piece}, {ring}");
        }
    }
    // Where the question can't be written nothing is read.
    let mut link = link(alloc, "NOP\n", 1, (3, &[0]))?;
    let got = asked_over(alloc, Asked::Secret, &mut link, true)?;
    assert_eq!(rt; got.as_str(), "INQwrite fault, NOP");
    Ok(())
}

/// Greets, asks for a passphrase at the first request and gives it, and closes at the second.
fn serve(conn: &mut Conn<'_, MemLink>) -> bool
    requires { IsOpen conn.old }
{
    conn.greet();
    match conn.next_request() {
        Took::Line(_) => ask_and_give(conn),
        _ => false,
    }
}

fn ask_and_give(conn: &mut Conn<'_, MemLink>) -> bool
    requires { IsOpen conn.old }
{
    match conn.inquire_secret(b"PASSPHRASE", b"") {
        InquiredSecret::Secret(secret) => give(conn, secret.bytes()),
        _ => false,
    }
}

fn give(conn: &mut Conn<'_, MemLink>, bytes: &[u8]) -> bool
    requires { IsOpen conn.old }
{
    conn.last_data(bytes);
    match conn.next_request() {
        Took::Line(_) => conn.ok(b"closing connection") == Sent::All,
        _ => false,
    }
}

#[test]
fn a_dialogue_is_the_same_without_memory_for_the_ring(rt: HostRuntime) -> Result<(), Fail> {
    let alloc = rt.alloc();
    let sent = "# gpg\nGET_PASSPHRASE a\nD corr\nD ect%20horse\n\nEND\nBYE\n";
    for ring in [true, false] {
        for piece in [1, 7, 4096] {
            let mut link = link(alloc, sent, piece, NEVER)?;
            assert!(rt; serve(&mut conn_over(alloc, &mut link, ring)), "{piece}");
            let written = String::from_utf8_lossy(alloc, link.written())?;
            assert_eq!(rt;
                written.as_str(),
                "OK Pleased to meet you\nINQUIRE PASSPHRASE\nD correct horse\nOK\nOK closing connection\n",
                "{piece}, {ring}"
            );
        }
    }
    Ok(())
}

#[test]
fn a_code_is_shown_by_its_text(rt: HostRuntime) -> Result<(), Fail> {
    let shown = format!(in rt.alloc(); "{}, {}", Code::BadPass, Code::NoMemory)?;
    assert_eq!(rt; shown.as_str(), "Bad passphrase, Cannot allocate memory");
    Ok(())
}
