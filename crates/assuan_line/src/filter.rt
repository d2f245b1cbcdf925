//! Lines that a reader passes over, as comments or an inquiry's data: the trait by which callers
//! say which, and the loop over them. It reads the source by the reader, and overwrites each line
//! that was skipped. Begin with `next_after_skipped`; definitions begin in `specs/Skipping`.

ghost use Rattle.std.specs.Prelude.{◌≡◌, ◌++◌, ◌∷◌, [], ℕ, List, Bool, true, false, None};
ghost use Rattle.assuan_line.specs.{Next.ended_by, Reading.HasRead};
ghost use Rattle.assuan_line.specs.Skipping.{IsUndecided, ReadsOn};

use crate::{Line, LineReader, Took};
use agent_ports::Source;

/// Which lines are skipped, and what is kept of them.
pub trait LineFilter {
    /// Whether a line is skipped behind these, in order: all that were skipped since the filter was
    /// made.
    ghost skips: { List (List ℕ) → List ℕ → Bool };

    /// What the filter keeps of the lines that were skipped.
    ghost keeps: { Self → List (List ℕ) → Type 0 };

    /// How many bytes it may keep.
    ghost limit: { Self → ℕ };

    /// Whether the line is skipped. Then it counts among those that were, and something of it may
    /// be kept.
    fn skip(&mut self, line: &Line) -> bool
        ensures known { (before : List (List ℕ)) → keeps self.old before
            → result ≡ skips before line.now }
        ensures skipped { (before : List (List ℕ)) → keeps self.old before → result ≡ true
            → keeps self.new (before ++ line.now ∷ []) }
        ensures stays { (before : List (List ℕ)) → keeps self.old before → result ≡ false
            → keeps self.new before }
        ensures limit { limit self.new ≡ limit self.old };
}

/// Reads on over the lines that the filter skips, and gives the first answer that is none of them.
/// After any answer but a line no more is read.
pub fn next_after_skipped<S: Source, F: LineFilter>(
    reader: &mut LineReader,
    source: &mut S,
    filter: &mut F,
) -> Took
    requires { reader.old.ended ≡ None }
    ensures read { (before : List (List ℕ)) → F.keeps filter.old before
        → HasRead (IsUndecided F.skips before) (ReadsOn F.skips before (F.keeps filter.new))
        reader.old (S.input source.old) result reader.new (S.input source.new) }
    ensures ended { reader.new.ended ≡ ended_by result }
    ensures limit { F.limit filter.new ≡ F.limit filter.old }
    ensures beside { S.beside_input source.new ≡ S.beside_input source.old }
{
    loop {
        let mut took = reader.next(source);
        let Took::Line(line) = &mut took else {
            return took;
        };
        if !filter.skip(line) {
            return took;
        }
        line.clear();
    }
}
