//! Blank and tab, by which the words of a line are apart. Pure, over slices. Begin with
//! `without_blanks`, and with its namesake in `specs/Blanks`.

ghost use Rattle.std.specs.Prelude.{◌≡◌, ◌≤◌, length};
ghost use Rattle.assuan_text.specs.Blanks.{is_blank, without_blanks};

/// Whether the byte is a blank or a tab.
pub fn is_blank(byte: u8) -> bool
    ensures { result ≡ is_blank byte }
{
    matches!(byte, b' ' | b'\t')
}

/// The bytes after the blanks and tabs at the front.
pub fn without_blanks(bytes: &[u8]) -> &[u8]
    ensures bytes { result.now ≡ without_blanks bytes.now }
    ensures shorter { length result.now ≤ length bytes.now }
{
    let mut rest = bytes;
    while let [b' ' | b'\t', others @ ..] = rest {
        rest = others;
    }
    rest
}
