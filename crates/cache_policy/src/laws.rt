//! What the policy comes to over whole histories and runs. Functions without a body, whose
//! contracts are facts about the definitions; they touch nothing. Begin with `nothing_comes_back`
//! (`specs/Return`) and `one_prompt` (`specs/OnePrompt`).

ghost use Rattle.std.specs.Prelude.{◌≡◌, ◌<◌, ◌≤◌, ◌+◌, ◌||◌, ◌&&◌, ℕ, List, [], ◌∷◌, ◌++◌, Option};
ghost use Rattle.std.specs.Prelude.{None, Some, Bool, true, false, not, max, length, map};
ghost use Rattle.std.specs.{Prelude.if◌then◌else◌, Option.{option_or, option_map, option_and_then}};
ghost use Rattle.agent_ports.specs.{Leads.Leads, declared.session.SessionId.SessionId as Session};
ghost use Rattle.cache_policy.specs.declared.bounds.TheConstants.{MAX_MARKS, MAX_MOMENT};
ghost use Rattle.cache_policy.specs.declared.{life.Limits.Limits, mode.Mode.Mode, mark.Mark.Mark};
ghost use Rattle.cache_policy.specs.declared.mark.{MarkStep.MarkStep, MarkReply.TheVariants.Given};
ghost use Rattle.cache_policy.specs.{declared.entry.Entry.Entry, Entry.within};
ghost use Rattle.cache_policy.specs.Histories.{History, next_number, with_mark};
ghost use Rattle.cache_policy.specs.Entries.{stored, entries, AreNumbered};
ghost use Rattle.cache_policy.specs.Seat.{under_of, is_open, is_stop, unless_given_back, seat};
ghost use Rattle.cache_policy.specs.Seat.{stopped};
ghost use Rattle.cache_policy.specs.Live.{newest_of, newest, takes_away, gone, gives, last_use};
ghost use Rattle.cache_policy.specs.{Live.{is_live, live}, Policy.{Reply, policy}};
ghost use Rattle.cache_policy.specs.Runs.{last_base, is_spent, turn_over, next_history, IsRun};
ghost use Rattle.cache_policy.specs.Runs.{joined, start_of_run, moment_before, last_history};
ghost use Rattle.cache_policy.specs.{Runs.run_with_mark, Legal.{IsLegal, IsLegalRun}};
ghost use Rattle.cache_policy.specs.{Return.IsGivenRightly, OnePrompt.HasOnePrompt};
ghost use Rattle.cache_policy.specs.{Bare.{bare_step, bare, bare_entry}, Replay.Replays};
ghost use Rattle.cache_policy.specs.Extending.{Taken, TakesTurn, ExtendsDesk};

use crate::Desk;

/// Nothing comes back. In a legal history each passphrase that was given was the newest for its
/// request, had not been cleared, and was within both lifetimes.
pub fn nothing_comes_back()
    ensures { (limits : Limits) (history : History) (before later : List Mark)
        (mark : Mark) (number : ℕ) → IsLegal limits history
        → history.marks ≡ before ++ mark ∷ later → mark.reply ≡ Given number
        → IsGivenRightly limits (record history { marks = before }) mark number }
{}

/// One prompt. In a legal run no Open stands between an Open and the Close of its ticket, also
/// where the history turned over in between; and none stands before the Close of a ticket that was
/// out when the run began.
pub fn one_prompt()
    ensures alone { (limits : Limits) (run : List History) (start : History) → IsLegalRun limits run
        → start_of_run run ≡ Some start → HasOnePrompt start (joined run) }
    // So a mark's number, which is its history's base plus its place there, is the first base plus
    // its place among all marks of the run.
    ensures numbers { (run front back : List History) (start history : History)
        → IsRun run → start_of_run run ≡ Some start
        → run ≡ front ++ history ∷ back → history.base ≡ start.base + length (joined front) }
{}

/// What one mark more makes of a history: of its seat, of whether it has stopped, and of which
/// entries are gone, used, newest and live. It stays legal by a mark that follows the policy, has
/// room, and whose moment doesn't fall, unless the agent is spent.
pub fn one_more_mark()
    ensures seat { (history : History) (mark : Mark)
        → seat (with_mark history mark) ≡ (if is_open mark.reply
        then Some (record { ticket = next_number history; under = under_of mark.step })
        else option_and_then (unless_given_back mark.step) (seat history)) }
    ensures stopped { (history : History) (mark : Mark)
        → stopped (with_mark history mark) ≡ (stopped history || is_stop mark.step) }
    ensures entries { (limits : Limits) (history : History) (mark : Mark)
        → entries limits (with_mark history mark)
        ≡ entries limits history ++ stored limits history mark.step mark.moment }
    ensures numbers { (limits : Limits) (history : History)
        → AreNumbered history.base (entries limits history) (next_number history) }
    ensures newest { (limits : Limits) (history : History) (mark : Mark) (id : List ℕ) (mode : Mode)
        → newest limits (with_mark history mark) id mode
        ≡ option_or (newest_of id mode (stored limits history mark.step mark.moment))
        (newest limits history id mode) }
    ensures gone { (history : History) (mark : Mark) (entry : Entry)
        → entry.number < next_number history
        → gone (with_mark history mark) entry ≡ (gone history entry || takes_away entry mark.step) }
    ensures last_use { (history : History) (mark : Mark) (entry : Entry)
        → last_use (with_mark history mark) entry ≡ (if gives entry.number mark.reply
        then max (last_use history entry) mark.moment else last_use history entry) }

    // An entry of before, and one that the mark itself stored.
    ensures live { (history : History) (mark : Mark) (entry : Entry) (moment : ℕ)
        → entry.number < next_number history → is_live (with_mark history mark) moment entry
        ≡ (not (gone history entry || takes_away entry mark.step) && within entry
        (if gives entry.number mark.reply then max (last_use history entry) mark.moment
        else last_use history entry) moment) }
    ensures live_at_once { (limits : Limits) (history : History) (mark : Mark)
        (entry : Entry) (moment : ℕ) → IsLegal limits history
        → entry.number ≡ next_number history → gives entry.number mark.reply ≡ false
        → is_live (with_mark history mark) moment entry ≡ within entry entry.entered moment }

    ensures legal { (limits : Limits) (history : History) (mark : Mark) → IsLegal limits history
        → policy limits history mark.step mark.moment ≡ Reply mark.reply
        → moment_before history.marks ≤ mark.moment → mark.moment ≤ MAX_MOMENT → history.base
        < last_base → length history.marks < MAX_MARKS → IsLegal limits (with_mark history mark) }
{}

/// What a turn-over makes of a full history: the seat stays as it was, and so does whether the
/// agent has stopped; nothing is live any more; and it stays legal.
pub fn a_history_turns_over()
    ensures seat { (history : History) → seat (turn_over history) ≡ seat history }
    ensures stopped { (history : History) → stopped (turn_over history) ≡ stopped history }
    ensures live { (limits : Limits) (history : History) (id : List ℕ) (mode : Mode) (moment : ℕ)
        → live limits (turn_over history) id mode moment ≡ None }
    ensures legal { (limits : Limits) (history : History) → IsLegal limits history
        → length history.marks ≡ MAX_MARKS → IsLegal limits (turn_over history) }
{}

/// What one mark more makes of a run: it began alike, its marks go on by this one, and it stays
/// legal where the mark follows the policy of the history that is next, which isn't spent, and its
/// moment doesn't fall.
pub fn a_run_goes_on()
    ensures start { (run : List History) (mark : Mark)
        → start_of_run (run_with_mark run mark) ≡ start_of_run run }
    ensures marks { (run : List History) (mark : Mark) → IsRun run
        → joined (run_with_mark run mark) ≡ joined run ++ mark ∷ [] }
    ensures last { (run : List History) (history : History) (mark : Mark)
        → last_history run ≡ Some history
        → last_history (run_with_mark run mark) ≡ Some (with_mark (next_history history) mark) }
    ensures legal { (limits : Limits) (run : List History) (history : History) (mark : Mark)
        → IsLegalRun limits run → last_history run ≡ Some history
        → policy limits (next_history history) mark.step mark.moment ≡ Reply mark.reply
        → moment_before (joined run) ≤ mark.moment → mark.moment ≤ MAX_MOMENT
        → (next_history history).base < last_base → IsLegalRun limits (run_with_mark run mark) }

    // A spent agent has made all its marks.
    ensures spent { (limits : Limits) (history : History) → IsLegal limits history
        → is_spent (next_history history) ≡ true → history.base + length history.marks ≡ last_base }
    // A turn-over alone leaves the run as legal as it was.
    ensures turned_over { (limits : Limits) (run : List History) (history : History)
        → IsLegalRun limits run → last_history run ≡ Some history → length history.marks ≡ MAX_MARKS
        → IsLegalRun limits (run ++ turn_over history ∷ [])
        × (joined (run ++ turn_over history ∷ []) ≡ joined run) }
{}

/// The policy reads no byte of a secret: without them a history has the same seat, the same entries
/// but for their bytes, and the same replies; and it is legal where it was.
pub fn no_secret_is_read()
    ensures seat { (history : History) → seat (bare history) ≡ seat history }
    ensures stopped { (history : History) → stopped (bare history) ≡ stopped history }
    ensures entries { (limits : Limits) (history : History)
        → entries limits (bare history) ≡ map bare_entry (entries limits history) }
    ensures live { (limits : Limits) (history : History) (id : List ℕ) (mode : Mode) (moment : ℕ)
        → live limits (bare history) id mode moment ≡ option_map bare_entry
        (live limits history id mode moment) }
    ensures last_use { (history : History) (entry : Entry)
        → last_use (bare history) (bare_entry entry) ≡ last_use history entry }
    ensures policy { (limits : Limits) (history : History) (asked : MarkStep) (moment : ℕ)
        → policy limits (bare history) (bare_step asked) moment
        ≡ policy limits history asked moment }
    ensures legal { (limits : Limits) (history : History) → IsLegal limits history
        → IsLegal limits (bare history) }
{}

/// There is one replay at most of these steps at these readings: two runs that are it are one.
pub fn a_replay_is_the_only_one()
    ensures { (limits : Limits) (session : Session) (steps : List MarkStep)
        (readings : List ℕ) (run other : List History) → Replays limits session steps readings run
        → Replays limits session steps readings other → run ≡ other }
{}

/// Turns at a desk extend its run where that is known: the marks of the desk's session in it are
/// theirs, in their order, and it stays legal, also at the end of each turn.
pub fn turns_extend_a_run<D: Desk>()
    ensures { (before after : D) (turns : List Taken)
        → Leads (TakesTurn D.turned) before turns after
        → ExtendsDesk (D.at before) turns (D.at after) }
{}
