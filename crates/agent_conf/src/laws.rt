//! Laws of what is kept: functions without a body, whose contracts are facts about the definitions.
//! Nothing runs. Begin with `nothing_laxer_is_kept`; which options limit says `specs/Limits`.

ghost use Rattle.std.specs.Prelude.{◌≡◌, ◌≤◌, ◌⊎◌, ◌∷◌, [], ℕ, List, Contains, IfNone, IfSome};
ghost use Rattle.std.specs.Prelude.{Some, false, true};
ghost use Rattle.std.specs.{List.list_all, Option.option_map_or};
ghost use Rattle.agent_conf.specs.Limits.{holds_by, is_listed, is_passed_over, limits};
ghost use Rattle.agent_conf.specs.{Settled.option_of, Table.rows};
ghost use Rattle.agent_conf.specs.Numbers.{NoLaxer, greatest_of, is_measured, kept_in, least_of};
ghost use Rattle.agent_conf.specs.{Settled.{Texts, settled}, Starts.{kept_of, told_of}};
ghost use Rattle.agent_conf.specs.{Table.row_of, Verdicts.{has_refusal, verdict_of}};
ghost use Rattle.agent_conf.specs.{Written.Written, declared.table.Row.TheVariants.Number};
ghost use Rattle.agent_conf.specs.declared.numbers.Range.{Range};

/// A law: of a number nothing laxer is kept. What is kept is the nearest on the stricter side, a
/// refused one has none there, and one in the range is kept. Each option that limits is kept,
/// refused or so anyway, and none is passed over; the table has no other one.
pub fn nothing_laxer_is_kept()
    ensures kept { (range : Range) (written : ℕ) → IfSome (kept_in range written)
        (λ kept. (is_measured range written ≡ true) ⊎ NoLaxer range kept written) }
    ensures nearest { (range : Range) (written other : ℕ) → IfSome (kept_in range written)
        (λ kept. (is_measured range written ≡ true) ⊎ (least_of range ≤ other
        → other ≤ greatest_of range → NoLaxer range other written
        → NoLaxer range other kept)) }
    ensures refused { (range : Range) (written other : ℕ) → IfNone (kept_in range written)
        (least_of range ≤ other → other ≤ greatest_of range → NoLaxer range other written → ⊥) }
    ensures exact { (range : Range) (written : ℕ) → least_of range ≤ written
        → written ≤ greatest_of range → kept_in range written ≡ Some written }
    ensures rows { (name : List ℕ) → Contains limits name
        → option_map_or (holds_by name) (row_of name) false ≡ true }
    ensures all { list_all is_listed rows ≡ true }
    ensures limited { (home user : List ℕ) (before : List Written) (setting : Written)
        (name : List ℕ) → option_of setting ≡ Some name → Contains limits name
        → is_passed_over (verdict_of home user before setting) ≡ false }
{}

/// A law: where no setting refuses the start, a number that counts is kept, so that a default
/// stands only where nobody says a number.
pub fn what_counts_is_kept()
    ensures { (home user : List ℕ) (texts : Texts) (name : List ℕ) (range : Range)
        (setting : Written) → row_of name ≡ Some (Number range)
        → has_refusal (told_of home user texts) ≡ false
        → settled (name ∷ []) texts ≡ Some setting
        → (number : ℕ) × (kept_of range setting.value ≡ Some number) }
{}
