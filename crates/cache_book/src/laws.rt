//! A law: what each kind of mark (log entry) and a turn-over make of a history's slots. A function
//! without a body, whose contract is a fact about the definitions; it touches nothing. By it a
//! shelf may stand in place of a history. Begin with `slots` of `specs/Slots`.

ghost use Rattle.std.specs.Prelude.{◌≡◌, ℕ, ◌≤◌, List, [], ◌∷◌, false, Option, None, Some};
ghost use Rattle.cache_policy.specs.declared.{life.Limits.Limits, mode.Mode.Mode, mark.Mark.Mark};
ghost use Rattle.cache_policy.specs.declared.mark.MarkStep.TheVariants.{Ask, Clear, Flush};
ghost use Rattle.cache_policy.specs.declared.mark.{Way.Way, MarkReply.TheVariants.{Given, Done}};
ghost use Rattle.cache_policy.specs.declared.{entry.Entry.Entry, grant.Grant.Grant};
ghost use Rattle.cache_policy.specs.{Histories.{History, next_number, with_mark}, Entries.stored};
ghost use Rattle.cache_policy.specs.{Live.{takes_away, gives, live}, Legal.IsLegal, Runs.turn_over};
ghost use Rattle.cache_book.specs.Slots.{slots};
ghost use Rattle.cache_book.specs.Shelves.{IsGrantFrom, ServesNone, touched, cleared, swept};
ghost use Rattle.cache_book.specs.Shelves.{with_entry};

/// What becomes of a history's slots: as time goes by, by one mark more, and at a turn-over. So a
/// shelf that has the slots of a history has them after each step, by the call for that kind of
/// step; and what it finds for a request is the live entry.
pub fn slots_of_a_history()
    ensures later { (limits : Limits) (history : History) (now later : ℕ) → now ≤ later
        → slots limits history later ≡ swept later (slots limits history now) }
    ensures same { (limits : Limits) (history : History) (mark : Mark) (moment : ℕ) → stored limits
        history mark.step mark.moment ≡ [] → ((entry : Entry) → takes_away entry mark.step ≡ false)
        → ((number : ℕ) → gives number mark.reply ≡ false)
        → slots limits (with_mark history mark) moment ≡ slots limits history moment }
    ensures given { (limits : Limits) (history : History) (mark : Mark) (id : List ℕ)
        (mode : Mode) (way : Way) (since : Option ℕ) (entry : Entry)
        → mark.step ≡ Ask id mode way since → live limits history id mode mark.moment ≡ Some entry
        → mark.reply ≡ Given entry.number → slots limits (with_mark history mark) mark.moment
        ≡ touched entry.number mark.moment (slots limits history mark.moment) }
    ensures stored { (limits : Limits) (history : History) (mark : Mark) (entry : Entry)
        → IsLegal limits history → stored limits history mark.step mark.moment
        ≡ entry ∷ [] → entry.number ≡ next_number history → entry.entered ≡ mark.moment
        → mark.reply ≡ Done → slots limits (with_mark history mark) mark.moment ≡ with_entry entry
        (slots limits history mark.moment) }
    ensures cleared { (limits : Limits) (history : History) (mark : Mark) (moment : ℕ) (id : List ℕ)
        (mode : Mode) → mark.step ≡ Clear id mode → mark.reply ≡ Done → slots limits
        (with_mark history mark) moment ≡ cleared id mode (slots limits history moment) }
    ensures flushed { (limits : Limits) (history : History) (mark : Mark) (moment : ℕ)
        → mark.step ≡ Flush → slots limits (with_mark history mark) moment ≡ [] }
    ensures turned_over { (limits : Limits) (history : History) (moment : ℕ)
        → slots limits (turn_over history) moment ≡ [] }
    ensures found { (limits : Limits) (history : History) (id : List ℕ)
        (mode : Mode) (moment : ℕ) (grant : Grant)
        → IsGrantFrom (slots limits history moment) id mode moment grant
        → live limits history id mode moment ≡ Some grant.entry }
    ensures none { (limits : Limits) (history : History) (id : List ℕ) (mode : Mode) (moment : ℕ)
        → ServesNone (slots limits history moment) id mode moment
        → live limits history id mode moment ≡ None }
{}
