//! Which lines are no requests: empty ones, blank ones and comments. A filter that keeps nothing of
//! them; the reading is done by `Conn::next_request`. Begin with `NextRequest` of `specs/Requests`,
//! and with the law that the next request is the only one.

ghost use Rattle.std.specs.Prelude.{◌≡◌, ◌++◌, ◌∷◌, [], ℕ, List, true, false};
ghost use Rattle.{assuan_line.specs.Next.Reader, assuan_text.specs.Forms.is_ignored};
ghost use Rattle.assuan_server.specs.Requests.{IsNextRequest};

use assuan_line::{Line, LineFilter, Took};
use assuan_text::is_ignored;

/// The lines that are no requests, of which nothing is kept.
#[derive(Drop)]
pub(crate) struct Ignored;

impl LineFilter for Ignored {
    ghost skips = { λ _ line. is_ignored line };

    ghost keeps = { λ _ _. Unit {0} };

    ghost limit = { λ _. 0 };

    fn skip(&mut self, line: &Line) -> bool {
        is_ignored(line.bytes())
    }
}

/// A law: the bytes decide which line is the next request, and which bytes are left behind it.
pub fn requests_are_the_only_ones()
    ensures { (bytes line other : List ℕ) (after later : Reader) (left rest : List ℕ)
        → IsNextRequest bytes (Took.Line line) after left
        → IsNextRequest bytes (Took.Line other) later rest
        → (line ≡ other) × (after.ahead ++ left ≡ later.ahead ++ rest) }
{}
