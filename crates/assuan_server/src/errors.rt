//! Where an error comes from, and the text of an error line: number, description and source, as
//! libgpg-error has them. Pure, without memory. Begin with `error_text`, and with its namesake in
//! `specs/Errors`.

ghost use Rattle.std.specs.Prelude.{◌≡◌, ◌≤◌, ◌<◌, ◌^◌, length, false};
ghost use Rattle.{assuan_text.specs.LineEnds.has_lf, assuan_line.specs.Lines.IsLine};
ghost use Rattle.assuan_server.specs.Errors.{source_of, source_name, error_number, error_text};

use assuan_text::Text;
use itoa::Buffer;
use session_client::Code;

/// Where an error comes from.
#[derive(Clone, Copy, PartialEq, Eq)]
pub enum Origin {
    /// The agent itself.
    Agent,
    /// Its pinentry.
    Pinentry,
}

impl Origin {
    ghost use Rattle.assuan_server.specs.Errors.{source_of, source_name};

    fn number(self) -> u32
        ensures value { result ≡ source_of self }
        ensures small { result ≤ 5 }
    {
        match self {
            Origin::Agent => 4,
            Origin::Pinentry => 5,
        }
    }

    fn name(self) -> &'static str
        ensures text { result.now ≡ source_name self }
        ensures short { length result.now ≤ 40 }
        ensures one_line { has_lf result.now ≡ false }
    {
        match self {
            Origin::Agent => "GPG Agent",
            Origin::Pinentry => "Pinentry",
        }
    }
}

/// The text of an error line: the error's number, its description, and where it comes from.
pub(crate) fn error_text(code: Code, origin: Origin) -> Text
    ensures text { result.items ≡ error_text code origin }
    ensures is_line { IsLine result.items }
{
    let number = origin.number() * 16_777_216 + code.number();
    let mut buffer = Buffer::new();
    let mut text = Text::new();
    text.try_extend_from_slice(b"ERR ").unwrap();
    text.try_extend_from_slice(buffer.format(number).as_bytes())
        .unwrap();
    text.push(b' ');
    text.try_extend_from_slice(code.text().as_bytes()).unwrap();
    text.try_extend_from_slice(b" <").unwrap();
    text.try_extend_from_slice(origin.name().as_bytes())
        .unwrap();
    text.push(b'>');
    text
}
