//! What the user is asked by MARKTRUSTED: whether the certificate is trusted, and whether its
//! fingerprint is right. Pure. Begin with `trust_question`; `specs/TrustExchanges` defines both
//! texts.

ghost use Rattle.std.specs.Prelude.{◌≡◌};
ghost use Rattle.agent_origin.specs.TrustExchanges.{trust_question, fingerprint_question};

use super::OwnerName;
use agent_ports::Grip;
use assuan_text::Text;

/// Whether the certificate is trusted.
pub(crate) fn trust_question(name: &OwnerName) -> Text
    ensures { result.items ≡ trust_question name.now.items }
{
    let mut text = Text::new();
    text.try_extend_from_slice(b"Trust ").unwrap();
    text.try_extend_from_slice(name).unwrap();
    text.try_extend_from_slice(b"?").unwrap();
    text
}

/// Whether it is the owner's.
pub(crate) fn fingerprint_question(fingerprint: &Grip, name: &OwnerName) -> Text
    ensures { result.items ≡ fingerprint_question fingerprint.now name.now.items }
{
    let mut text = Text::new();
    text.try_extend_from_slice(b"Is ").unwrap();
    text.try_extend_from_slice(&fingerprint.text()).unwrap();
    text.try_extend_from_slice(b" the right fingerprint of ")
        .unwrap();
    text.try_extend_from_slice(name).unwrap();
    text.try_extend_from_slice(b"?").unwrap();
    text
}
