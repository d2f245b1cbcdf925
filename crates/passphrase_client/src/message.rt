//! What a user is told of a run's end, as one line on the error stream, without a byte that a
//! terminal would obey. It writes there alone; a write that fails is told to nobody. Begin with
//! `tell`; the sentences are `message_of` (`specs/Messages`).

ghost use Rattle.std.specs.Prelude.{◌≡◌, ◌≤◌, ◌++◌, ◌∷◌, [], codes, decimal, MatchOption, length};
ghost use Rattle.std.specs.List.{flat_map};
ghost use Rattle.{agent_ports.specs.Writing.Writes, printable.specs.Printables.printable};
ghost use Rattle.passphrase_client.specs.Messages.{message_of, cause_words, input_words};
ghost use Rattle.passphrase_client.specs.Messages.{loss_words, said, sentence_text, code_of};
ghost use Rattle.passphrase_client.specs.{Messages.code_in, Runs.Says};

use crate::InputFault;
use crate::ending::{Cause, Ending, Lifetime};
use agent_ports::{Sink, WriteFault};
use arrayvec::ArrayVec;
use itoa::Buffer;
use passphrase_talk::Loss;
use printable::printable_byte;

/// Says on the error stream how the run of this id ended, with the reason that the connector has
/// for its last failure. Where that can't be written nobody is to be told.
pub(crate) fn tell<E: Sink>(errors: &mut E, ending: Ending, id: &[u8], reason: &[u8])
    ensures { Says (message_of ending id.now reason.now) (E.output errors.old)
        (E.output errors.new) }
{
    let mut buffer = Buffer::new();
    let digits = buffer.format(code_of(ending)).as_bytes();
    if let Some(words) = sentence_of(ending, id, reason, digits) {
        say(errors, words.first, words.second, words.third, words.last);
    }
}

/// What is said, in parts that stand one behind another.
#[derive(Clone, Copy)]
struct Sentence<'a> {
    first: &'a [u8],
    second: &'a [u8],
    third: &'a [u8],
    last: &'a [u8],
}

/// The code that is said, where one is.
fn code_of(ending: Ending) -> u32
    ensures { result ≡ code_of ending }
{
    match ending {
        Ending::Refused(Cause::Other(code)) => code,
        _ => 0,
    }
}

/// What is said of an end, where something is.
fn sentence_of<'a>(
    ending: Ending,
    id: &'a [u8],
    reason: &'a [u8],
    digits: &'a [u8],
) -> Option<Sentence<'a>>
    requires { digits.now ≡ decimal (code_of ending) }
    ensures { MatchOption result (message_of ending id.now reason.now ≡ [])
        (λ words. message_of ending id.now reason.now ≡ said (sentence_text words)) }
{
    match ending {
        Ending::Given(Lifetime::AsWanted) | Ending::Done | Ending::Kept | Ending::NotCached => None,
        Ending::Given(Lifetime::AsBefore) => Some(named(id, AS_BEFORE, b"")),
        Ending::NotKept => Some(cause_sentence(Cause::NoData, id, digits)),
        Ending::Refused(cause) => Some(cause_sentence(cause, id, digits)),
        Ending::Empty => Some(named(PASSPHRASE_OF, id, b" is empty, and is forgotten")),
        Ending::NotOneLine => Some(named(PASSPHRASE_OF, id, b" has a NUL or a line feed")),
        Ending::NoMemory => Some(plain(b"out of memory")),
        Ending::Input(fault) => Some(plain(input_words(fault))),
        Ending::Unwritten => Some(plain(b"standard output can't be written")),
        Ending::NoAgent => Some(plain(reason)),
        Ending::Lost(loss) => Some(plain(loss_words(loss, reason))),
    }
}

/// Why the agent refused.
fn cause_sentence<'a>(cause: Cause, id: &'a [u8], digits: &'a [u8]) -> Sentence<'a>
    requires { digits.now ≡ decimal (code_in cause) }
    ensures { sentence_text result ≡ cause_words cause id.now }
{
    match cause {
        Cause::NoData => named(KEPT_AS, b"", id),
        Cause::NoPrompt => named(KEPT_AS, id, b", and there is no terminal to ask in"),
        Cause::Closed => named(KEPT_AS, id, CLOSED),
        Cause::Canceled => named(b"the prompt for ", id, b" was cancelled"),
        Cause::NotTyped => named(b"nothing was typed for ", id, b" in time"),
        Cause::OtherPrompt => plain(b"another prompt is open, and was for a minute"),
        Cause::Differ => named(PASSPHRASE_OF, id, DIFFER),
        Cause::Bad => named(PASSPHRASE_OF, id, WEAK),
        Cause::NoPresets => plain(NO_PRESETS),
        Cause::NoTtl => plain(NO_TTL),
        Cause::NoLifetime => plain(NO_LIFETIME),
        Cause::Other(code) => refused(id, code, digits),
    }
}

/// That the agent refused, by the words of the error's code where it has some.
fn refused<'a>(id: &'a [u8], code: u32, digits: &'a [u8]) -> Sentence<'a>
    requires { digits.now ≡ decimal code }
    ensures { sentence_text result ≡ cause_words (Cause.Other code) id.now }
{
    match code {
        GENERAL => named(
            REFUSED,
            id,
            b": its own work failed (error 1), of which its log may say more",
        ),
        FORBIDDEN => named(
            REFUSED,
            id,
            b": its socket for other machines forbids it (error 251)",
        ),
        UNKNOWN_COMMAND => named(REFUSED, id, b": it doesn't know it (error 275)"),
        PARAMETER => named(REFUSED, id, b": it doesn't take its words (error 280)"),
        OUT_OF_CORE => named(REFUSED, id, b": it is out of memory (error 32854)"),
        _ => Sentence {
            first: REFUSED,
            second: id,
            third: b": error ",
            last: digits,
        },
    }
}

const REFUSED: &[u8] = b"the agent refused the request for ";

// The codes of libgpg-error that have words of their own.
const GENERAL: u32 = 1;

const FORBIDDEN: u32 = 251;

const UNKNOWN_COMMAND: u32 = 275;

const PARAMETER: u32 = 280;

const OUT_OF_CORE: u32 = 32_854;

const CLOSED: &[u8] =
    b", and its prompt was closed: there is no terminal to ask in, or this program was stopped";

const KEPT_AS: &[u8] = b"nothing is kept as ";

const PASSPHRASE_OF: &[u8] = b"the passphrase of ";

const DIFFER: &[u8] = b" was refused three times: the repeats differ";

const WEAK: &[u8] =
    b" was refused three times: at least 8 characters, one of them no letter (min-passphrase-len, min-passphrase-nonalpha)";

const NO_PRESETS: &[u8] = b"the agent takes no presets: allow-preset-passphrase in gpg-agent.conf";

const NO_TTL: &[u8] =
    b"the agent takes no presets: --ttl wants allow-preset-passphrase in its gpg-agent.conf, or passphrase --homedir DIR with that line in DIR/gpg-agent.conf";

const NO_LIFETIME: &[u8] =
    b"the agent takes no presets with an end, as GnuPG's own doesn't: --ttl wants passphrase --homedir DIR, with allow-preset-passphrase in DIR/gpg-agent.conf";

const AS_BEFORE: &[u8] = b" is kept already, and its end wasn't changed: --new --ttl asks anew";

fn plain(words: &[u8]) -> Sentence<'_>
    ensures { sentence_text result ≡ words.now }
{
    named(b"", b"", words)
}

fn named<'a>(first: &'a [u8], name: &'a [u8], last: &'a [u8]) -> Sentence<'a>
    ensures { sentence_text result ≡ first.now ++ (name.now ++ last.now) }
{
    Sentence {
        first,
        second: name,
        third: b"",
        last,
    }
}

/// Why what stands on standard input is refused.
fn input_words(fault: InputFault) -> &'static [u8]
    ensures { result.now ≡ input_words fault }
{
    match fault {
        InputFault::Unread => b"standard input can't be read",
        InputFault::Empty => b"standard input has no passphrase",
        InputFault::TooLong => b"a passphrase has at most 255 bytes",
        InputFault::NotOneLine => b"a passphrase is one line without NUL",
    }
}

/// How the agent was lost.
fn loss_words(loss: Loss, reason: &[u8]) -> &[u8]
    ensures { result.now ≡ loss_words loss reason.now }
{
    match loss {
        Loss::Broken => b"the agent broke the protocol",
        Loss::Ended => b"the agent ended the connection",
        Loss::Unmet | Loss::Read | Loss::Write => reason,
    }
}

/// How many bytes are made printable at a time.
const PIECE: usize = 256;

/// Says these words one behind another, as a line of this program. A byte that a terminal would
/// obey, as an agent's reason and a refused word may have, is a question mark.
pub(crate) fn say<E: Sink>(errors: &mut E, first: &[u8], second: &[u8], third: &[u8], last: &[u8])
    ensures { Says (said (first.now ++ (second.now ++ (third.now ++ last.now))))
        (E.output errors.old) (E.output errors.new) }
{
    let _ = put_line(errors, &[first, second, third, last]);
}

/// Writes the parts one behind another, as a line of this program.
fn put_line<K: Sink>(sink: &mut K, parts: &[&[u8]]) -> Result<(), WriteFault>
    ensures { Writes (said (flat_map (λ part. part.now) parts.now)) (K.output sink.old) result
        (K.output sink.new) }
{
    put(sink, b"passphrase: ")?;
    put_all(sink, parts)?;
    put(sink, b"\n")
}

/// Writes the parts one behind another, made printable.
fn put_all<K: Sink>(sink: &mut K, parts: &[&[u8]]) -> Result<(), WriteFault>
    ensures { Writes (printable (flat_map (λ part. part.now) parts.now)) (K.output sink.old) result
        (K.output sink.new) }
{
    let Some((part, rest)) = parts.split_first() else {
        return Ok(());
    };
    put_printable(sink, part)?;
    put_all(sink, rest)
}

/// Writes the bytes, made printable.
fn put_printable<K: Sink>(sink: &mut K, bytes: &[u8]) -> Result<(), WriteFault>
    ensures { Writes (printable bytes.now) (K.output sink.old) result (K.output sink.new) }
{
    let Some((piece, rest)) = bytes.split_at_checked(PIECE) else {
        return put(sink, printable_of(bytes).as_slice());
    };
    put(sink, printable_of(piece).as_slice())?;
    put_printable(sink, rest)
}

/// A piece of what is said, made printable.
fn printable_of(piece: &[u8]) -> ArrayVec<u8, PIECE>
    requires { length piece.now ≤ PIECE }
    ensures { result.items ≡ printable piece.now }
{
    let mut text = ArrayVec::new();
    for byte in piece {
        text.push(printable_byte(*byte));
    }
    text
}

/// Writes the bytes.
pub(crate) fn put<K: Sink>(sink: &mut K, bytes: &[u8]) -> Result<(), WriteFault>
    ensures { Writes bytes.now (K.output sink.old) result (K.output sink.new) }
{
    sink.put(bytes).whole()
}
