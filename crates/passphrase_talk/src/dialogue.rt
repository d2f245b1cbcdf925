//! The dialogue of one contact: the greeting, options, one request, and the inquiries that come
//! before its answer (Assuan manual, "server responses"). It writes and reads by a `Peer`, and
//! tells the connector of a pinentry where a user may have to type. Begin with `lead`; its rule is
//! `IsDialogue` (`specs/Dialogues`).

ghost use Rattle.std.specs.{Prelude.{◌≡◌, ◌<◌, [], true, OnOk}, List.flat_map};
ghost use Rattle.{assuan_client.specs.Answers.state_after, assuan_line.specs.Next.held};
ghost use Rattle.session_options.specs.OptionValues.{words_of};
ghost use Rattle.passphrase_talk.specs.Turns.{IsAnswered};
ghost use Rattle.passphrase_talk.specs.Dialogues.{IsDialogue, Requests, Replies, Leads, told_of};
ghost use Rattle.passphrase_talk.specs.Dialogues.{told_behind, told_by, loss_of, quiet, is_inquiry};
ghost use Rattle.passphrase_talk.specs.Dialogues.{passed, options_of, option_lines, launch_in};
ghost use Rattle.passphrase_talk.specs.Dialogues.{launches_behind, launches_of, all_settings};
ghost use Rattle.passphrase_talk.specs.Dialogues.{reply_to, after_said, Tells};
ghost use Rattle.passphrase_talk.specs.Contacts.{HandsOver, with_launches};
ghost use Rattle.assuan_client.specs.declared.answer.State.TheVariants as state;

use crate::options::{SETTINGS, Setting, setting_line};
use crate::{Connector, Loss, Told, Waits};
use agent_ports::Link;
use assuan_client::{Answer, Peer};
use assuan_line::{Breach, Line};
use assuan_text::MAX_LINE_LEN;
use session_options::Env;
use wiping::Wiped;

/// How a request goes.
#[derive(Clone, Copy)]
pub(crate) struct Course {
    /// The agent said that a pinentry was launched.
    launched: bool,
    /// An inquiry wasn't answered.
    cancelled: bool,
}

/// Waits for the greeting, says the options where a user may have to type, and makes the request.
pub(crate) fn lead<C: Connector>(
    connector: &mut C,
    peer: &mut Peer<C::Link>,
    waits: Waits,
    line: &Line,
) -> Told
    requires { peer.old.state ≡ state.Ready }
    ensures leads { Leads waits (IsDialogue (options_of waits (C.terminal connector.old)) line.now)
        told_of launches_of peer.old result peer.new
        (C.contacts connector.old).launches (C.contacts connector.new).launches }
    ensures contacts { C.contacts connector.new
        ≡ with_launches (C.contacts connector.old) (C.contacts connector.new).launches }
    ensures terminal { C.terminal connector.new ≡ C.terminal connector.old }
{
    match peer.hello() {
        Answer::Ok => match waits {
            Waits::Answer => request(connector, peer, waits, line),
            Waits::Prompt => request_with_options(connector, peer, line),
        },
        last => Told::Lost(loss_of(&last)),
    }
}

/// Says the options, and makes the request.
fn request_with_options<C: Connector>(
    connector: &mut C,
    peer: &mut Peer<C::Link>,
    line: &Line,
) -> Told
    requires { peer.old.state ≡ state.Ready }
    ensures leads { Leads Waits.Prompt (Requests line.now
        (flat_map (option_lines (C.terminal connector.old)) all_settings))
        told_of launches_of peer.old result peer.new
        (C.contacts connector.old).launches (C.contacts connector.new).launches }
    ensures contacts { C.contacts connector.new
        ≡ with_launches (C.contacts connector.old) (C.contacts connector.new).launches }
    ensures terminal { C.terminal connector.new ≡ C.terminal connector.old }
{
    for setting in SETTINGS {
        if let Err(loss) = tell(peer, connector.terminal(), setting) {
            return Told::Lost(loss);
        }
    }
    request(connector, peer, Waits::Prompt, line)
}

/// Says an option, if it has a value. An agent may refuse it.
fn tell<L: Link>(peer: &mut Peer<L>, env: &Env, setting: Setting) -> Result<(), Loss>
    requires { peer.old.state ≡ state.Ready }
    ensures tells { Tells (option_lines (words_of env.now) setting) peer.old result peer.new }
    ensures ready { OnOk result (peer.new.state ≡ state.Ready) }
{
    match setting_line(env, setting) {
        Some(line) => passed(&peer.command(&line)),
        None => Ok(()),
    }
}

/// Whether the dialogue goes on behind the answer to an option.
fn passed(answer: &Answer) -> Result<(), Loss>
    ensures { result ≡ passed answer.now }
{
    match answer {
        Answer::Ok | Answer::Err(_) => Ok(()),
        answer => Err(loss_of(answer)),
    }
}

/// Makes the request.
fn request<C: Connector>(
    connector: &mut C,
    peer: &mut Peer<C::Link>,
    waits: Waits,
    line: &Line,
) -> Told
    requires { peer.old.state ≡ state.Ready }
    ensures leads { Leads waits (Requests line.now []) told_of launches_of peer.old result peer.new
        (C.contacts connector.old).launches (C.contacts connector.new).launches }
    ensures contacts { C.contacts connector.new
        ≡ with_launches (C.contacts connector.old) (C.contacts connector.new).launches }
    ensures terminal { C.terminal connector.new ≡ C.terminal connector.old }
{
    let answer = peer.command(line);
    settle(connector, peer, waits, answer)
}

/// Answers what the agent inquires after this answer, up to one that is no inquiry.
fn settle<C: Connector>(
    connector: &mut C,
    peer: &mut Peer<C::Link>,
    waits: Waits,
    answer: Answer,
) -> Told
    requires { peer.old.state ≡ state_after answer }
    ensures leads { Leads waits (Replies answer) (told_behind quiet answer) (launches_behind answer)
        peer.old result peer.new (C.contacts connector.old).launches (C.contacts connector.new).launches }
    ensures contacts { C.contacts connector.new
        ≡ with_launches (C.contacts connector.old) (C.contacts connector.new).launches }
    ensures terminal { C.terminal connector.new ≡ C.terminal connector.old }
{
    let mut course = Course {
        launched: false,
        cancelled: false,
    };
    let mut answer = answer;
    while let Answer::Asked { word, text } = &mut answer {
        let next = inquired(connector, peer, waits, &mut course, word, text);
        word.clear();
        text.clear();
        answer = next;
    }
    told_by(course, answer)
}

/// Answers an inquiry: END, where it is the notice of a pinentry, and nothing else is answered. The
/// notice is passed on where a user may have to type: elsewhere no prompt of this program can be.
fn inquired<C: Connector>(
    connector: &mut C,
    peer: &mut Peer<C::Link>,
    waits: Waits,
    course: &mut Course,
    word: &Wiped<MAX_LINE_LEN>,
    text: &Wiped<MAX_LINE_LEN>,
) -> Answer
    requires { peer.old.state ≡ state.Asked }
    ensures answered { IsAnswered (reply_to word.now) result peer.old peer.new }
    ensures course { course.new ≡ after_said (reply_to word.now) course.old }
    ensures state { peer.new.state ≡ state_after result }
    ensures launches { HandsOver waits (launch_in (Answer.Asked word.now text.now))
        (C.contacts connector.old).launches (C.contacts connector.new).launches }
    ensures progress { is_inquiry result ≡ true → held peer.new.reader < held peer.old.reader }
    ensures contacts { C.contacts connector.new
        ≡ with_launches (C.contacts connector.old) (C.contacts connector.new).launches }
    ensures terminal { C.terminal connector.new ≡ C.terminal connector.old }
{
    if word.bytes() == b"PINENTRY_LAUNCHED".as_slice() {
        course.launched = true;
        match waits {
            Waits::Prompt => connector.launched(text.bytes(), peer),
            Waits::Answer => {}
        }
        return peer.reply(&[]);
    }
    course.cancelled = true;
    peer.cancel()
}

/// What is told of the last answer to a request.
fn told_by(course: Course, answer: Answer) -> Told
    ensures { result ≡ told_by course answer }
{
    match answer {
        Answer::Ok if course.cancelled => Told::Cancelled(None),
        Answer::Ok => Told::Done,
        Answer::Got(_) if course.cancelled => Told::Cancelled(None),
        Answer::Got(secret) => Told::Passphrase(secret),
        Answer::Err(code) if course.cancelled => Told::Cancelled(Some(code)),
        Answer::Err(code) => Told::Refused {
            code,
            launched: course.launched,
        },
        last => Told::Lost(loss_of(&last)),
    }
}

/// Why there is no answer to go on with.
fn loss_of(answer: &Answer) -> Loss
    ensures { result ≡ loss_of answer.now }
{
    match answer {
        Answer::ReadFault => Loss::Read,
        Answer::WriteFault => Loss::Write,
        Answer::Broken(Breach::Ended) => Loss::Ended,
        _ => Loss::Broken,
    }
}
