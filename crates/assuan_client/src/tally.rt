//! What came of one command so far: notes are counted, data kept up to a secret's length. It is the
//! filter by which lines are skipped, and touches its own bytes alone, without memory. Begin with
//! `skip` and `Tally::answer`; `skips_behind` of `specs/Skipping` says which lines are skipped.

ghost use Rattle.std.specs.Prelude.{◌≡◌, ◌≢◌, ◌≤◌, ◌+◌, ◌++◌, [], ◌∷◌, length, nat_le, List, ℕ};
ghost use Rattle.std.specs.{Prelude.None, Bool.{OnTrue, OnFalse}};
ghost use Rattle.assuan_line.specs.Next.{ended_by};
ghost use Rattle.assuan_text.specs.declared.TheConstants.{MAX_LINE_LEN};
ghost use Rattle.assuan_escape.specs.DataLines.{carried};
ghost use Rattle.cache_policy.specs.declared.secret.TheConstants.{MAX_SECRET_LEN};
ghost use Rattle.assuan_client.specs.Answers.{Says, IsStop, ended_of, state_after, success_of};
ghost use Rattle.assuan_client.specs.{Answers.inquiry_after, declared.tally.TheConstants.MAX_NOTES};
ghost use Rattle.assuan_client.specs.Skipping.{nothing, with_inquiry, skips_behind, IsBehind};

use crate::form::{Form, form_of};
use crate::{Answer, State};
use assuan_escape::data_of;
use assuan_line::{Breach, Line, LineFilter, Took};
use cache_policy::{MAX_SECRET_LEN, Secret};
use std::marker::Model;
use wiping::Wiped;

/// How many comments, status lines and inquiries a command may have.
pub const MAX_NOTES: u16 = 10_000;

/// What came in a command so far, of the lines that are skipped and of inquiries.
#[derive(Drop)]
pub(crate) struct Tally {
    notes: u16,
    bytes: Wiped<MAX_SECRET_LEN>,
}

impl Model for Tally {
    ghost use Rattle.std.specs.Prelude.{◌≤◌, length};
    ghost use Rattle.assuan_client.specs.Skipping.{Tally as TallyValue};
    ghost use Rattle.assuan_client.specs.declared.tally.TheConstants.{MAX_NOTES};
    ghost use Rattle.cache_policy.specs.declared.secret.TheConstants.{MAX_SECRET_LEN};

    ghost Value = { TallyValue };

    ghost view = { λ t. record { notes = t.notes; bytes = t.bytes } };

    ghost invariant = { λ t. (t.notes ≤ MAX_NOTES) × (length t.bytes ≤ MAX_SECRET_LEN) };
}

impl Tally {
    pub(crate) fn new() -> Tally
        ensures { result ≡ nothing }
    {
        Tally {
            notes: 0,
            bytes: Wiped::new(),
        }
    }

    /// Forgets what came. The bytes are overwritten.
    pub(crate) fn clear(&mut self)
        ensures { self.new ≡ nothing }
    {
        self.notes = 0;
        self.bytes.clear();
    }

    /// Forgets what came, unless the command goes on.
    pub(crate) fn settle(&mut self, answer: &Answer)
        ensures asked { (word text : List ℕ) → answer.now ≡ Answer.Asked word text
            → self.new ≡ self.old }
        ensures cleared { state_after answer.now ≢ State.Asked → self.new ≡ nothing }
    {
        if answer.state() != State::Asked {
            self.clear();
        }
    }

    /// Counts a comment, a status line or an inquiry, if there may be one more.
    fn count(&mut self) -> bool
        ensures may { result ≡ nat_le (self.old.notes + 1) MAX_NOTES }
        ensures counted { OnTrue result (self.new ≡ with_inquiry self.old) }
        ensures stays { OnFalse result (self.new ≡ self.old) }
    {
        if self.notes == MAX_NOTES {
            return false;
        }
        self.notes += 1;
        true
    }

    /// Keeps what a data line carries, if there may be so much more.
    fn keep(&mut self, line: &[u8]) -> bool
        requires short { length line.now ≤ MAX_LINE_LEN }
        ensures may { result
            ≡ nat_le (length self.old.bytes + length (carried line.now)) MAX_SECRET_LEN }
        ensures kept { OnTrue result (self.new
            ≡ record { notes = self.old.notes; bytes = self.old.bytes ++ carried line.now }) }
        ensures stays { OnFalse result (self.new ≡ self.old) }
    {
        match data_of(line) {
            Some(mut bytes) => {
                let fits = self.bytes.try_extend_from_slice(bytes.bytes()).is_ok();
                bytes.clear();
                fits
            }
            None => true,
        }
    }

    /// The answer by the line that isn't skipped, which is cleared, or by the end of the lines.
    pub(crate) fn answer(&mut self, took: &mut Took) -> Answer
        ensures says { IsStop self.old took.old → Says self.old took.old result }
        ensures asked { (word text : List ℕ) → result ≡ Answer.Asked word text
            → self.new ≡ with_inquiry self.old }
        ensures ended { ended_by took.old ≡ ended_of result }
        ensures no_write { result ≢ Answer.WriteFault }
    {
        match took {
            Took::Line(line) => {
                let answer = self.answer_by(line);
                line.clear();
                answer
            }
            Took::TooLong => Answer::Broken(Breach::TooLong),
            Took::End => Answer::Broken(Breach::Ended),
            Took::Spent => Answer::Broken(Breach::Spent),
            Took::ReadFault => Answer::ReadFault,
        }
    }

    /// The answer by a line that isn't skipped.
    fn answer_by(&mut self, line: &Line) -> Answer
        ensures says { IsStop self.old (Took.Line line.now)
            → Says self.old (Took.Line line.now) result }
        ensures asked { (word text : List ℕ) → result ≡ Answer.Asked word text
            → self.new ≡ with_inquiry self.old }
        ensures ended { ended_of result ≡ None }
        ensures no_write { result ≢ Answer.WriteFault }
    {
        match form_of(line.bytes()) {
            Form::Data => Answer::Broken(Breach::TooMuch),
            Form::Note => Answer::Broken(Breach::Many),
            Form::Ok => self.success(),
            Form::Err(number) => Answer::Err(number),
            Form::Inquiry { word, text } => self.inquiry(word, text),
            Form::Foreign => Answer::Broken(Breach::Line(Line::of(line.bytes()).unwrap())),
        }
    }

    /// The answer by `OK`.
    fn success(&self) -> Answer
        ensures { result ≡ success_of self.now.bytes }
    {
        if self.bytes.is_empty() {
            return Answer::Ok;
        }
        Answer::Got(Secret::of(self.bytes.bytes()).unwrap())
    }

    /// The answer by an inquiry, which is counted.
    fn inquiry(&mut self, word: &[u8], text: &[u8]) -> Answer
        requires short { (length word.now ≤ MAX_LINE_LEN) × (length text.now ≤ MAX_LINE_LEN) }
        ensures answer { result ≡ inquiry_after self.old word.now text.now }
        ensures asked { (word text : List ℕ) → result ≡ Answer.Asked word text
            → self.new ≡ with_inquiry self.old }
    {
        if !self.count() {
            return Answer::Broken(Breach::Many);
        }
        Answer::Asked {
            word: Wiped::of(word).unwrap(),
            text: Wiped::of(text).unwrap(),
        }
    }
}

impl LineFilter for Tally {
    ghost skips = { λ before line. skips_behind before line };

    ghost keeps = { λ tally before. IsBehind tally before };

    ghost limit = { λ _. MAX_SECRET_LEN };

    fn skip(&mut self, line: &Line) -> bool {
        match form_of(line.bytes()) {
            Form::Note => self.count(),
            Form::Data => self.keep(line.bytes()),
            _ => false,
        }
    }
}
