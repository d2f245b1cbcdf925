//! The requests of `passphrase` to an agent, as lines (GnuPG manual, "Agent's Assuan protocol":
//! GET_PASSPHRASE, PRESET_PASSPHRASE, CLEAR_PASSPHRASE, RELOADAGENT). Pure; digits of a secret are overwritten.
//! Begin with `Task::line`; the lines are `line_of_request` (`specs/Requests`).

ghost use Rattle.std.specs.{Prelude.{◌≡◌, ◌≤◌, false, length, decimal}, List.flat_map};
ghost use Rattle.{assuan_line.specs.Lines.IsLine, assuan_text.specs.LineEnds.has_lf};
ghost use Rattle.passphrase_words.specs.Requests.{line_of_request, request_value, asking_options};
ghost use Rattle.passphrase_words.specs.Requests.{get_line, seconds_word, hex_of, hex_digit};
ghost use Rattle.passphrase_words.specs.{Requests.{Clears, Presets, Probes}, Tasks.task_value};

use crate::{Act, Task};
use arrayvec::ArrayVec;
use assuan_line::Line;
use assuan_text::MAX_LINE_LEN;
use cache_policy::{MAX_SECRET_LEN, Secret};
use itoa::Buffer;
use wiping::Wiped;

/// How many hexadecimal digits a passphrase has at most.
const MAX_DIGITS: usize = 2 * MAX_SECRET_LEN;

/// A request to an agent (GnuPG manual, "Agent's Assuan protocol").
#[derive(Clone, Copy)]
pub enum Request<'a> {
    /// What is kept, without a prompt.
    Look,
    /// What is kept, or what the user types, as the act says.
    Ask,
    /// What is kept is forgotten.
    Clear,
    /// All that is kept is, under whatever id.
    ClearAll,
    /// The passphrase is stored for so many seconds.
    Preset {
        /// None: as long as the agent runs.
        ttl: Option<u32>,
        /// What is stored.
        secret: &'a Secret,
    },
    /// Whether the agent stores, which then asks for a passphrase.
    Probe,
}

impl Task<'_> {
    /// The line of a request. Digits of a secret are overwritten.
    pub fn line(&self, request: &Request<'_>) -> Line
        ensures { result ≡ line_of_request (task_value self.now) (request_value request.now) }
    {
        match request {
            Request::Look => self.get(b"--data --no-ask "),
            Request::Ask => self.get(asking_options(self.act)),
            Request::Clear => self.clear(),
            Request::ClearAll => line_of(&[b"RELOADAGENT"]),
            Request::Preset { ttl, secret } => self.preset(*ttl, secret),
            Request::Probe => self.probe(),
        }
    }

    /// A look-up with these options.
    fn get(&self, options: &[u8]) -> Line
        requires short { length options.now ≤ 18 }
        requires whole { has_lf options.now ≡ false }
        ensures { result ≡ get_line (task_value self.now) options.now }
    {
        line_of(&[
            b"GET_PASSPHRASE ",
            options,
            self.id.as_slice(),
            b" X ",
            self.texts.as_slice(),
        ])
    }

    fn clear(&self) -> Line
        ensures { result ≡ line_of_request (task_value self.now) Clears }
    {
        line_of(&[b"CLEAR_PASSPHRASE ", self.id.as_slice()])
    }

    fn preset(&self, ttl: Option<u32>, secret: &Secret) -> Line
        ensures { result ≡ line_of_request (task_value self.now) (Presets ttl secret.now) }
    {
        let seconds = seconds_word(ttl);
        let mut digits = hex_of(secret.bytes());
        let line = line_of(&[
            b"PRESET_PASSPHRASE ",
            self.id.as_slice(),
            b" ",
            seconds.as_slice(),
            b" ",
            digits.bytes(),
        ]);
        digits.clear();
        line
    }

    fn probe(&self) -> Line
        ensures { result ≡ line_of_request (task_value self.now) Probes }
    {
        let seconds = seconds_word(Some(self.act.ttl().unwrap_or(1)));
        line_of(&[
            b"PRESET_PASSPHRASE --inquire ",
            self.id.as_slice(),
            b" ",
            seconds.as_slice(),
        ])
    }
}

impl Act {
    ghost use Rattle.passphrase_words.specs.Requests.{act_ttl};

    /// For how many seconds what is typed is kept, where it is said.
    pub fn ttl(self) -> Option<u32>
        ensures { result ≡ act_ttl self }
    {
        match self {
            Act::Give { ttl, .. } => ttl,
            _ => None,
        }
    }
}

/// The options of a request that may ask.
fn asking_options(act: Act) -> &'static [u8]
    ensures options { result.now ≡ asking_options act }
    ensures short { length result.now ≤ 18 }
    ensures whole { has_lf result.now ≡ false }
{
    match act {
        Act::Give {
            repeats: true,
            quiet: false,
            ..
        } => b"--data --repeat=1 ",
        Act::Give {
            repeats: false,
            quiet: false,
            ..
        } => b"--data ",
        _ => b"--data --no-ask ",
    }
}

/// The line whose text is the parts one behind another.
fn line_of(parts: &[&[u8]]) -> Line
    requires { IsLine (flat_map (λ part. part.now) parts.now) }
    ensures { result ≡ flat_map (λ part. part.now) parts.now }
{
    let mut bytes: Wiped<MAX_LINE_LEN> = Wiped::new();
    for part in parts {
        bytes.try_extend_from_slice(part).unwrap();
    }
    let line = Line::of(bytes.bytes()).unwrap();
    bytes.clear();
    line
}

fn seconds_word(ttl: Option<u32>) -> ArrayVec<u8, 10>
    ensures word { result.items ≡ seconds_word ttl }
    ensures short { length result.items ≤ 10 }
    ensures whole { has_lf result.items ≡ false }
{
    match ttl {
        Some(seconds) => decimal(seconds),
        None => {
            let mut word = ArrayVec::new();
            word.try_extend_from_slice(b"-1").unwrap();
            word
        }
    }
}

fn decimal(number: u32) -> ArrayVec<u8, 10>
    ensures digits { result.items ≡ decimal number }
    ensures short { length result.items ≤ 10 }
    ensures whole { has_lf result.items ≡ false }
{
    let mut buffer = Buffer::new();
    let mut digits = ArrayVec::new();
    digits
        .try_extend_from_slice(buffer.format(number).as_bytes())
        .unwrap();
    digits
}

/// The upper-case hexadecimal digits of the bytes, two for each.
fn hex_of(bytes: &[u8]) -> Wiped<MAX_DIGITS>
    requires { length bytes.now ≤ MAX_SECRET_LEN }
    ensures digits { result ≡ flat_map hex_of bytes.now }
    ensures short { length result ≤ MAX_DIGITS }
{
    let mut digits = Wiped::new();
    for byte in bytes {
        digits.push(hex_digit(byte / 16));
        digits.push(hex_digit(byte % 16));
    }
    digits
}

fn hex_digit(number: u8) -> u8
    requires { number ≤ 15 }
    ensures { result ≡ hex_digit number }
{
    if number < 10 {
        number + b'0'
    } else {
        number - 10 + b'A'
    }
}
