//! The check of all lines of a file before its key is read: each has its form, and one at most
//! begins a `Key`. Pure, line by line and without memory. Begin with `check_lines`; `line_fault` of
//! `specs/Faults` says which fault is the first.

ghost use Rattle.std.specs.Prelude.{◌≡◌, ◌||◌, not, Some, None, IfErr, OnOk, List, length};
ghost use Rattle.std.specs.List.{list_any};
ghost use Rattle.key_lines.specs.Items.{is_comment, is_key};
ghost use Rattle.key_lines.specs.{Faults.{line_fault, fault_of_form, is_in_item}, KeyFile.IsFault};
ghost use Rattle.key_lines.specs.declared.forms.LineForm.{LineForm};

use crate::fault::LinesFault;
use crate::forms::{LineForm, line_form};
use crate::lines::next_line;

/// Whether each line has its form, and at most one begins a `Key`. The fault is that of the first
/// line that has one.
pub(crate) fn check_lines(file: &[u8]) -> Result<(), LinesFault>
    ensures ok { OnOk result (line_fault file.now ≡ None) }
    ensures fault { IfErr result (IsFault file.now) }
{
    let mut rest = file;
    let mut number = 0;
    let mut in_item = false;
    let mut has_key = false;
    while let Some((line, after)) = next_line(rest) {
        let form = line_form(line);
        match form {
            LineForm::GoesOn if !in_item => return Err(LinesFault::BadLine(number)),
            LineForm::Key if has_key => return Err(LinesFault::TwoKeys(number)),
            LineForm::NoForm => return Err(LinesFault::BadLine(number)),
            _ => {}
        }
        in_item = form != LineForm::Comment;
        has_key = has_key || form == LineForm::Key;
        number += 1;
        rest = after;
    }
    Ok(())
}
