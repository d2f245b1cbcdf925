//! The command `passphrase`, and the same as an askpass: words read, a task carried out, its
//! passphrase written. It works on the connector and the three standard streams. Begin with
//! `run_passphrase`; what a run is says `RunsBy` (`specs/Runs`), and its status `specs/Endings`.

ghost use Rattle.std.specs.Prelude.{◌≡◌, ◌≤◌, cond, false, map, string_bytes, List, ℕ};
ghost use Rattle.agent_ports.specs.{Writing.Writes, Sides.Side};
ghost use Rattle.{assuan_text.specs.LineEnds.line_of, passphrase_talk.specs.Contacts.Contacts};
ghost use Rattle.passphrase_words.specs.{Faults.fault_text, Words.Reads};
ghost use Rattle.passphrase_words.specs.Tasks.{TaskValue, task_value, WantsTask};
ghost use Rattle.passphrase_client.specs.Runs.{RunsBy, RunsAskpass, HasRun, HasTold, HasRefused};
ghost use Rattle.passphrase_client.specs.Runs.{GoesTo, TakesHeld, Says, given_text, ending_of};
ghost use Rattle.passphrase_client.specs.{Runs.ending_of_unmet, Messages.said, Steps.may_ask};

use crate::course::{Course, come_to};
use crate::ending::{Ending, Lifetime};
use crate::input::{InputFault, take_secret};
use crate::message::{put, say, tell};
use crate::steps::steps_of;
use agent_ports::{Sink, Source, WriteFault};
use cache_policy::{MAX_SECRET_LEN, Secret};
use passphrase_talk::{Connector, Unmet};
use passphrase_words::{Act, Task, USAGE, Wanted, WordsFault, read_askpass, read_words};
use std::alloc::Global;
use wiping::{Wiped, wipe_stack};

/// How many bytes are written at most: those of a passphrase, and its line feed.
const MAX_WRITTEN: usize = MAX_SECRET_LEN + 1;

/// What `--version` says.
pub const VERSION: &str = "passphrase (Dogwoodcatch) 0.2.0\n";

/// Runs the command of these words, without the program's name, and returns the status of the
/// process: 0 where all was done, 1 where an agent refused or its passphrase can't be given, 2
/// where the words or the input are refused or the output can't be written, and 3 where there is no
/// agent, or it was lost. Standard output gets a passphrase alone, the lines of use, or the version.
/// Where the words don't have the user asked, nothing is made of a pinentry that an agent speaks
/// of.
pub fn run_passphrase<C: Connector, I: Source, O: Sink, E: Sink>(
    alloc: Global,
    words: &[String],
    connector: &mut C,
    input: &mut I,
    output: &mut O,
    errors: &mut E,
) -> u8
    ensures runs { RunsBy (map string_bytes words.now) (C.terminal connector.old)
        (C.reason connector.new) (record {
          contacts = C.contacts connector.old;
          input = I.input input.old;
          output = O.output output.old;
          errors = E.output errors.old;
        }) (record {
          contacts = C.contacts connector.new;
          input = I.input input.new;
          output = O.output output.new;
          errors = E.output errors.new;
        }) result }
    ensures unprompted { ((task : TaskValue) → Reads (map string_bytes words.now) (WantsTask task)
        → may_ask task.act ≡ false) → (C.contacts connector.new).launches ≡ (C.contacts connector.old).launches }
{
    match read_words(words) {
        Ok(Wanted::Help) => show(USAGE, output, errors),
        Ok(Wanted::Version) => show(VERSION, output, errors),
        Ok(Wanted::Task(task)) => run_task(alloc, &task, connector, input, output, errors),
        Err(fault) => refuse(&fault, errors),
    }
}

/// Runs the command as an askpass, whose one word is what the prompt says: as SSH_ASKPASS,
/// GIT_ASKPASS and SUDO_ASKPASS name it.
pub fn run_askpass<C: Connector, I: Source, O: Sink, E: Sink>(
    alloc: Global,
    words: &[String],
    connector: &mut C,
    input: &mut I,
    output: &mut O,
    errors: &mut E,
) -> u8
    ensures { RunsAskpass (map string_bytes words.now) (C.terminal connector.old)
        (C.reason connector.new) (record {
          contacts = C.contacts connector.old;
          input = I.input input.old;
          output = O.output output.old;
          errors = E.output errors.old;
        }) (record {
          contacts = C.contacts connector.new;
          input = I.input input.new;
          output = O.output output.new;
          errors = E.output errors.new;
        }) result }
{
    match read_askpass(words) {
        Ok(task) => run_task(alloc, &task, connector, input, output, errors),
        Err(fault) => refuse(&fault, errors),
    }
}

/// Runs a task, says how it ended, and returns the status.
fn run_task<C: Connector, I: Source, O: Sink, E: Sink>(
    alloc: Global,
    task: &Task<'_>,
    connector: &mut C,
    input: &mut I,
    output: &mut O,
    errors: &mut E,
) -> u8
    ensures runs { HasRun (task_value task.now) (C.terminal connector.old) (C.reason connector.new)
        (record {
          contacts = C.contacts connector.old;
          input = I.input input.old;
          output = O.output output.old;
          errors = E.output errors.old;
        }) (record {
          contacts = C.contacts connector.new;
          input = I.input input.new;
          output = O.output output.new;
          errors = E.output errors.new;
        }) result }
    ensures unprompted { may_ask (task_value task.now).act ≡ false
        → (C.contacts connector.new).launches ≡ (C.contacts connector.old).launches }
{
    let ending = end_of_task(alloc, task, connector, input, output);
    tell(errors, ending, task.id(), connector.reason().as_bytes());
    ending.status()
}

/// What the task comes to.
fn end_of_task<C: Connector, I: Source, O: Sink>(
    alloc: Global,
    task: &Task<'_>,
    connector: &mut C,
    input: &mut I,
    output: &mut O,
) -> Ending
    ensures goes { (errors later : Side) → GoesTo (task_value task.now) (C.terminal connector.old)
        (record {
          contacts = C.contacts connector.old;
          input = I.input input.old;
          output = O.output output.old;
          errors = errors;
        }) (record {
          contacts = C.contacts connector.new;
          input = I.input input.new;
          output = O.output output.new;
          errors = later;
        }) result }
    ensures unprompted { may_ask (task_value task.now).act ≡ false
        → (C.contacts connector.new).launches ≡ (C.contacts connector.old).launches }
{
    let mut held = match held_for(task.act, input) {
        Ok(held) => held,
        Err(fault) => return Ending::Input(fault),
    };
    let agents = match connector.find(task.folder, task.seconds) {
        Ok(agents) => agents,
        Err(why) => return end_of_unmet(why),
    };
    let steps = steps_of(task.act, agents);
    let mut course = come_to(alloc, connector, task, steps, &held, None);
    held.clear();
    // Moves of the passphrase left copies below.
    wipe_stack();
    match &mut course {
        Course::Gives(secret, lasts) => end_of(*lasts, give(task.act, secret, output)),
        Course::Ends(ending) => *ending,
    }
}

/// What is held as the first step comes: the passphrase on standard input, where it is to be
/// stored, and else an empty one.
fn held_for<I: Source>(act: Act, input: &mut I) -> Result<Secret, InputFault>
    ensures { TakesHeld act (I.input input.old) result (I.input input.new) }
{
    if act == Act::Store {
        take_secret(input)
    } else {
        Ok(Secret::of(b"").unwrap())
    }
}

/// Writes the passphrase at once, with its line feed where one is wanted, and overwrites it.
fn give<O: Sink>(act: Act, secret: &mut Secret, output: &mut O) -> Result<(), WriteFault>
    ensures { Writes (given_text act secret.old) (O.output output.old) result
        (O.output output.new) }
{
    let mut text: Wiped<MAX_WRITTEN> = Wiped::new();
    text.try_extend_from_slice(secret.bytes()).unwrap();
    secret.clear();
    if feeds(act) {
        text.push(b'\n');
    }
    let written = put(output, text.bytes());
    text.clear();
    written
}

/// Whether a line feed is written behind a passphrase.
fn feeds(act: Act) -> bool
    ensures { (secret : List ℕ) → given_text act secret ≡ cond result (line_of secret) secret }
{
    !matches!(act, Act::Give { feeds: false, .. })
}

/// Writes a text that was asked for.
fn show<O: Sink, E: Sink>(text: &str, output: &mut O, errors: &mut E) -> u8
    ensures { (contacts : Contacts) (input : Side) → HasTold text.now (record {
      contacts = contacts;
      input = input;
      output = O.output output.old;
      errors = E.output errors.old;
    }) (record {
      contacts = contacts;
      input = input;
      output = O.output output.new;
      errors = E.output errors.new;
    }) result }
{
    let ending = end_of(Lifetime::AsWanted, put(output, text.as_bytes()));
    tell(errors, ending, b"", b"");
    ending.status()
}

/// Says why the words are refused.
fn refuse<E: Sink>(fault: &WordsFault<'_>, errors: &mut E) -> u8
    ensures says { Says (said (fault_text fault.now)) (E.output errors.old) (E.output errors.new) }
    ensures status { result ≡ 2 }
{
    let words = fault.pieces();
    say(errors, words.first, words.second, words.third, words.last);
    2
}

/// What the run comes to without an agent.
fn end_of_unmet(why: Unmet) -> Ending
    ensures { result ≡ ending_of_unmet why }
{
    match why {
        Unmet::NoMemory => Ending::NoMemory,
        Unmet::Fault => Ending::NoAgent,
    }
}

/// What the write of the passphrase makes of the run.
fn end_of(lasts: Lifetime, written: Result<(), WriteFault>) -> Ending
    ensures { result ≡ ending_of lasts written }
{
    match written {
        Ok(()) => Ending::Given(lasts),
        Err(WriteFault) => Ending::Unwritten,
    }
}
