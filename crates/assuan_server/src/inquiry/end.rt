//! How an inquiry ends that has no bytes for its caller, once for all kinds of inquiry. Pure, but
//! that the line which ended it is overwritten. Begin with `end_of`; `ComesTo` of `specs/Inquiries`
//! says which end that line is.

ghost use Rattle.std.specs.Prelude.{◌≡◌, ℕ, List, codes, OnOk, IfErr, MatchResult};
ghost use Rattle.assuan_server.specs.Ends.{GivesNone, IsAnswerBy};
ghost use Rattle.assuan_server.specs.Inquiries.{IsWord};
ghost use Rattle.assuan_server.specs.Inquiries.{outcome_of, outcome_of_secret, outcome_of_dropped};
ghost use Rattle.assuan_server.specs.declared.inquiry.Dropped.TheVariants as drop;
ghost use Rattle.assuan_server.specs.declared.inquiry.Inquired.TheVariants as inquired;
ghost use Rattle.assuan_server.specs.declared.inquiry.InquiredSecret.TheVariants as secret;

use crate::{Dropped, Inquired, InquiredSecret};
use assuan_line::Took;
use assuan_text::first_word;
use session_client::{ClientError, Gone};

/// The answer of this name that has a client's error as its own.
macro_rules! answer_by {
    ($answer:ident, $error:expr) => {
        match $error {
            ClientError::Cancelled => $answer::Cancelled,
            ClientError::TooMuch => $answer::TooMuch,
            ClientError::Unexpected => $answer::Unexpected,
            ClientError::Gone(Gone::Ended) => $answer::Ended,
            ClientError::Gone(Gone::TooLong) => $answer::TooLong,
            ClientError::Gone(Gone::Spent) => $answer::Spent,
            ClientError::Gone(Gone::ReadFault) => $answer::ReadFault,
            ClientError::Gone(Gone::WriteFault) => $answer::WriteFault,
        }
    };
}

impl From<ClientError> for Inquired {
    ghost from_gives = { λ why answer. IsAnswerBy outcome_of inquired.WriteFault why answer };

    fn from(error: ClientError) -> Inquired {
        answer_by!(Inquired, error)
    }
}

impl From<ClientError> for InquiredSecret {
    ghost from_gives = { λ why answer. IsAnswerBy outcome_of_secret secret.WriteFault why answer };

    fn from(error: ClientError) -> InquiredSecret {
        answer_by!(InquiredSecret, error)
    }
}

impl From<ClientError> for Dropped {
    ghost from_gives = { λ why answer. IsAnswerBy outcome_of_dropped drop.WriteFault why answer };

    fn from(error: ClientError) -> Dropped {
        answer_by!(Dropped, error)
    }
}

/// Whether the answer after an inquiry's data lines, which is cleared, is END, or why the inquiry
/// has none for its caller.
pub(crate) fn end_of(took: &mut Took) -> Result<(), ClientError>
    ensures end { OnOk result
        ((line : List ℕ) × (took.old ≡ Took.Line line) × IsWord (codes "end") line) }
    ensures failure { IfErr result (GivesNone took.old) }
{
    match took {
        Took::Line(line) => {
            let end = end_of_line(line.bytes());
            line.clear();
            end
        }
        Took::TooLong => Err(ClientError::Gone(Gone::TooLong)),
        Took::End => Err(ClientError::Gone(Gone::Ended)),
        Took::Spent => Err(ClientError::Gone(Gone::Spent)),
        Took::ReadFault => Err(ClientError::Gone(Gone::ReadFault)),
    }
}

/// Whether the line is END, by its first word. Further words are ignored.
fn end_of_line(line: &[u8]) -> Result<(), ClientError>
    ensures { MatchResult result (λ _. IsWord (codes "end") line.now)
        (GivesNone (Took.Line line.now)) }
{
    let word = first_word(line);
    if word.eq_ignore_ascii_case(b"CAN") {
        Err(ClientError::Cancelled)
    } else if word.eq_ignore_ascii_case(b"END") {
        Ok(())
    } else {
        Err(ClientError::Unexpected)
    }
}
