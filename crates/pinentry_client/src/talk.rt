//! The talk with a pinentry's process, command by command: greeting and settings, GETPIN, CONFIRM,
//! and the inquiries that it makes meanwhile, as for the quality of a text. It touches the child's
//! connection alone. Begin with `start_talk` and `pin_talk`, and with their contracts in
//! `specs/Talking`.

ghost use Rattle.std.specs.Prelude.{◌≡◌, ◌≢◌, ◌≤◌, ◌<◌, ◌*◌, true, false, length, min, OnOk};
ghost use Rattle.{assuan_client.specs.Answers.state_after, assuan_line.specs.Next.held};
ghost use Rattle.assuan_escape.specs.Escapes.{unescaped};
ghost use Rattle.assuan_text.specs.declared.TheConstants.{MAX_LINE_LEN};
ghost use Rattle.pinentry_client.specs.Dialogues.{stays_ready, stays_open};
ghost use Rattle.pinentry_client.specs.Talking.{TellsSetting, Sets, StartTalk, Settles};
ghost use Rattle.pinentry_client.specs.Talking.{ChildInquires, is_asked, ErrorTalk, PinTalk};
ghost use Rattle.pinentry_client.specs.{Talking.ConsentTalk, Settings.all_settings};
ghost use Rattle.assuan_client.specs.declared.answer.State.TheVariants as state;

use crate::answers::{Trouble, accepted, consent_of, greeted, pid_after, pin_outcome};
use crate::settings::{SETTINGS, Setting, plain_line, setting_line, text_line};
use agent_ask::{Consent, Outcome, PromptSpec};
use agent_ports::Link;
use assuan_client::{Answer, Peer};
use assuan_escape::unescape;
use assuan_text::MAX_LINE_LEN;
use itoa::Buffer;
use pass_checks::quality;
use wiping::{Wiped, wipe};

/// Reads the child's greeting, and tells it all settings. Gives the number of its process, or 0.
pub(crate) fn start_talk<L: Link>(peer: &mut Peer<L>, spec: &PromptSpec) -> Result<u32, Trouble>
    requires { peer.old.state ≢ state.Broken }
    ensures talk { StartTalk spec.now peer.old result peer.new }
    ensures ready { OnOk result (peer.new.state ≡ state.Ready) }
{
    greeted(peer.hello())?;
    tell_settings(peer, spec)
}

/// Tells all settings.
fn tell_settings<L: Link>(peer: &mut Peer<L>, spec: &PromptSpec) -> Result<u32, Trouble>
    requires { peer.old.state ≡ state.Ready }
    ensures sets { Sets spec.now all_settings 0 peer.old result peer.new }
    ensures ready { OnOk result (peer.new.state ≡ state.Ready) }
{
    let mut pid = 0;
    for setting in SETTINGS {
        pid = tell_setting(peer, spec, setting, pid)?;
    }
    Ok(pid)
}

/// Tells a setting, if it is sent. Gives the number of the child's process, as far as it is known
/// then.
fn tell_setting<L: Link>(
    peer: &mut Peer<L>,
    spec: &PromptSpec,
    setting: Setting,
    pid: u32,
) -> Result<u32, Trouble>
    requires { peer.old.state ≡ state.Ready }
    ensures tells { TellsSetting spec.now setting pid peer.old result peer.new }
    ensures ready { OnOk result (peer.new.state ≡ state.Ready) }
{
    match setting_line(spec, setting) {
        Some(line) => pid_after(setting, pid, peer.command(&line)),
        None => Ok(pid),
    }
}

/// Asks for a passphrase.
pub(crate) fn pin_talk<L: Link>(peer: &mut Peer<L>, error: &[u8]) -> Outcome
    requires { peer.old.state ≡ state.Ready }
    ensures talk { PinTalk error.now peer.old result peer.new }
    ensures ready { stays_ready result ≡ true → peer.new.state ≡ state.Ready }
{
    match show_error(peer, error) {
        Ok(()) => {
            let answer = peer.command(&plain_line(b"GETPIN"));
            pin_outcome(settled(peer, answer, true))
        }
        Err(Trouble::Failed) => Outcome::Failed,
        Err(Trouble::Broken(breach)) => Outcome::Broken(breach),
    }
}

/// Has the child show a text as an error, if it isn't empty.
fn show_error<L: Link>(peer: &mut Peer<L>, error: &[u8]) -> Result<(), Trouble>
    requires { peer.old.state ≡ state.Ready }
    ensures talk { ErrorTalk error.now peer.old result peer.new }
    ensures ready { OnOk result (peer.new.state ≡ state.Ready) }
{
    if error.is_empty() {
        return Ok(());
    }
    accepted(peer.command(&text_line(b"SETERROR ", error)))
}

/// Asks for consent.
pub(crate) fn consent_talk<L: Link>(peer: &mut Peer<L>) -> Consent
    requires { peer.old.state ≡ state.Ready }
    ensures talk { ConsentTalk peer.old result peer.new }
    ensures ready { stays_open result ≡ true → peer.new.state ≡ state.Ready }
{
    let answer = peer.command(&plain_line(b"CONFIRM"));
    consent_of(settled(peer, answer, false))
}

/// Answers the child's inquiries after this answer, up to one that is none.
fn settled<L: Link>(peer: &mut Peer<L>, answer: Answer, rates: bool) -> Answer
    requires { peer.old.state ≡ state_after answer }
    ensures settles { Settles rates answer peer.old result peer.new }
    ensures state { peer.new.state ≡ state_after result }
    ensures last { is_asked result ≡ false }
{
    let mut answer = answer;
    while let Answer::Asked { word, text } = &mut answer {
        let next = inquired(peer, word, text, rates);
        word.clear();
        text.clear();
        answer = next;
    }
    answer
}

/// Answers an inquiry: how good its text is as a passphrase, where that is asked and told.
fn inquired<L: Link>(
    peer: &mut Peer<L>,
    word: &Wiped<MAX_LINE_LEN>,
    text: &Wiped<MAX_LINE_LEN>,
    rates: bool,
) -> Answer
    requires { peer.old.state ≡ state.Asked }
    ensures inquires { ChildInquires rates word.now text.now result peer.old peer.new }
    ensures state { peer.new.state ≡ state_after result }
    ensures progress { is_asked result ≡ true → held peer.new.reader < held peer.old.reader }
{
    if rates && word.bytes() == b"QUALITY".as_slice() {
        let rate = rate_of(text.bytes());
        return peer.reply(Buffer::new().format(rate).as_bytes());
    }
    peer.cancel()
}

/// How good a text would be as a passphrase, from 0 to 100. It is overwritten.
fn rate_of(text: &[u8]) -> u8
    requires { length text.now ≤ MAX_LINE_LEN }
    ensures { result ≡ min 100 (10 * length (unescaped false text.now)) }
{
    let mut typed = unescape(text, false);
    let rate = quality(&typed);
    wipe(&mut typed);
    rate as u8
}
