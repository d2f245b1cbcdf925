//! A file cut into lines with their ends, LF or CR LF, and the text of each. Pure, over slices.
//! Begin with `next_line`; `lines_of` and `line_text` of `specs/Lines` say the same of a whole
//! file.

ghost use Rattle.std.specs.Prelude.{◌≡◌, ◌==◌, ◌+◌, ◌<◌, ◌≤◌, [], ◌∷◌, ◌++◌, length, MatchOption};
ghost use Rattle.std.specs.{Prelude.min, List.position_or_len};
ghost use Rattle.assuan_text.specs.LineEnds.{is_lf, without_cr};
ghost use Rattle.key_lines.specs.Lines.{lines_of, line_text};

/// The first line, with its end, and what comes after it.
pub(crate) fn next_line(bytes: &[u8]) -> Option<(&[u8], &[u8])>
    ensures lines { MatchOption result (lines_of bytes.now ≡ []) (λ parts.
        lines_of bytes.now ≡ parts.0.now ∷ lines_of parts.1.now) }
    ensures parts { MatchOption result
        (bytes.now ≡ []) (λ parts. bytes.now ≡ parts.0.now ++ parts.1.now) }
    ensures shorter { MatchOption result
        (bytes.now ≡ []) (λ parts. length parts.1.now < length bytes.now) }
{
    if bytes.is_empty() {
        return None;
    }
    Some(bytes.split_at(line_len(bytes)))
}

// How many bytes the first line has, with its end.
fn line_len(bytes: &[u8]) -> usize
    ensures { result ≡ min (length bytes.now) (position_or_len is_lf bytes.now + 1) }
{
    bytes.len().min(len_before(b'\n', bytes) + 1)
}

/// How many bytes stand before the first such byte.
pub(crate) fn len_before(mark: u8, bytes: &[u8]) -> usize
    ensures place { result ≡ position_or_len (λ byte. byte == mark) bytes.now }
    ensures within { result ≤ length bytes.now }
{
    bytes.iter().take_while(|byte| **byte != mark).count()
}

/// The text of a line: all but its end.
pub(crate) fn line_text(line: &[u8]) -> &[u8]
    ensures { result.now ≡ line_text line.now }
{
    match line {
        [text @ .., b'\n'] => without_cr(text),
        _ => line,
    }
}

fn without_cr(bytes: &[u8]) -> &[u8]
    ensures { result.now ≡ without_cr bytes.now }
{
    match bytes {
        [text @ .., b'\r'] => text,
        _ => bytes,
    }
}
