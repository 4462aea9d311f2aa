//! What is true of the definitions, whatever the rules are. These functions have nothing to do: what each ensures is a law,
//! and without the law's proof the crate is refused.
ghost use Rattle.std.specs.Prelude.{◌≡◌, ℕ, suc, ◌<◌, ◌≤◌, Bool, true, List, [], ◌∷◌, ◌++◌, length, ℤ, Some, Decides, int_lt};
ghost use Rattle.raise.specs.Rules.{Rule, less_left, loses, safe_from};
ghost use Rattle.raise.specs.Calls.{Call, Answer, Limits, lays, lifts, next_row, number, fine, changed, told, answers};
ghost use Rattle.raise.specs.Promise.{borders, whole, Shown, NeverLess, WhereToLook, AnyOrder, RatesAlone, SafeFrom};
ghost use Rattle.raise.specs.Net.{net, share, Straight, breaks, breakpoints, clear, SameOrPast, slope_by, slope};
ghost use Rattle.raise.specs.Lowest.{lowest_from, Lowest, NetLine, lowest_with, loses_at};
ghost use Rattle.raise.specs.declared.LosingRow.{LosingRow};
ghost use Rattle.raise.specs.Told.{row_told};
ghost use Rattle.raise.specs.Rows.{LosingRows, losing_rows, first_row_from};
ghost use Rattle.raise.specs.Kinds.{with_kinds, all_lay_only};
ghost use Rattle.raise.specs.Laws.{LessAbove, Nobody, Rises, SeenAt, SeenNear, JustWithin, SafeTold, RowTold, AskedAlike, SameUpTo, Idle, idle};

/// Whoever loses can be shown a larger earning of which less is left; for whoever doesn't there is none.
pub fn shown()
    ensures stated { Shown }
    ensures decided { (rs : List Rule) (b g : ℕ) → Decides (loses rs b g) (LessAbove rs b g) }
{}

/// If nobody loses, more earned is never less left; and the other way.
pub fn never_less()
    ensures stated { NeverLess }
    ensures nobody { (rs : List Rule) (b : ℕ) → Rises rs b → Nobody rs b }
{}

/// A loss shows at a breakpoint, just before one, or at the bound. So it shows near a border or at the bound, and the next unit
/// need not be tried.
pub fn where_to_look()
    ensures closest { (rs : List Rule) (b g : ℕ) → loses rs b g ≡ true → SeenAt (breakpoints rs) rs b g }
    ensures near { (rs : List Rule) (b g : ℕ) → loses rs b g ≡ true → SeenNear (borders rs) rs b g }
    ensures stated { WhereToLook }
{}

/// The order of rules is nothing to what is left, nor to the answers to left, row and safe.
pub fn any_order()
    ensures stated { AnyOrder }
    ensures asked { (l : Limits) (rs ss : List Rule) (r q : Rule) → AskedAlike l (rs ++ (r ∷ (q ∷ ss))) (rs ++ (q ∷ (r ∷ ss))) }
{}

/// A rule is lifted by how many lie before it, and all others stay, in their order. So the number that is told of a rule as it is
/// laid lifts just that rule, whatever is laid after it.
pub fn numbered()
    ensures lifted { (rs ss : List Rule) (r : Rule) → changed (rs ++ (r ∷ ss)) (lifts (length rs)) ≡ rs ++ ss }
    ensures laid { (l : Limits) (rs ss : List Rule) (r : Rule) (n : ℕ) → told l rs (lays r) ≡ number n → changed (changed rs (lays r) ++ ss) (lifts n) ≡ rs ++ ss }
{}

/// How much rates and fades may take together of each unit so that nobody loses: all of it, and not a ten-thousandth more.
pub fn rates_alone() -> u32
    ensures stated { RatesAlone }
    ensures just { JustWithin result }
{
    10000
}

/// The earning that is called safe is, and no smaller one above is; where none is called safe, none is. No other answer says that.
pub fn safe_from()
    ensures stated { SafeFrom }
    ensures told { (rs : List Rule) (b g : ℕ) → SafeTold rs b g (safe_from rs b g) }
    ensures only { (rs : List Rule) (b g m n : ℕ) → SafeTold rs b g m → SafeTold rs b g n → m ≡ n }
{}

/// The answered row is the first from the asked earning on, from its first to its last; where none is answered, nobody from
/// there on loses. No other answer says that.
pub fn rows()
    ensures told { (l : Limits) (rs : List Rule) (g : ℕ) → RowTold rs l.bound g (told l rs (next_row g)) }
    ensures only { (rs : List Rule) (b g : ℕ) (a c : Answer) → RowTold rs b g a → RowTold rs b g c → a ≡ c }
{}

/// The rows that are found by trying every earning are those of all who lose, each as long as can be, and no other list is. The
/// answered row is the first of them from the asked earning on, less what lies before it.
pub fn losing_rows()
    ensures exact { (rs : List Rule) (b : ℕ) → LosingRows rs b (losing_rows rs b) }
    ensures only { (rs : List Rule) (b : ℕ) (rows : List LosingRow) → LosingRows rs b rows → rows ≡ losing_rows rs b }
    ensures row { (l : Limits) (rs : List Rule) (g : ℕ) → row_told (first_row_from (losing_rows rs l.bound) g) ≡ told l rs (next_row g) }
{}

/// Books by which the same comes in and goes out at every earning up to the bound answer left, row and safe alike.
pub fn alike()
    ensures { (l : Limits) (rs qs : List Rule) → SameUpTo l.bound rs qs → AskedAlike l rs qs }
{}

/// So a rule that neither gives nor takes up to the bound changes none of these answers, wherever it stands among the rules,
/// and when it is laid; and which rules those are: these, and of the rules in range no others.
pub fn idle_rules()
    ensures anywhere { (l : Limits) (rs ss : List Rule) (r : Rule) → Idle r l.bound → AskedAlike l (rs ++ (r ∷ ss)) (rs ++ ss) }
    ensures laid { (l : Limits) (rs : List Rule) (r : Rule) → Idle r l.bound → AskedAlike l (changed rs (lays r)) rs }
    ensures these { (r : Rule) (b : ℕ) → idle r b ≡ true → Idle r b }
    ensures no_others { (r : Rule) (b : ℕ) → fine r ≡ true → Idle r b → idle r b ≡ true }
{}

/// Less is left where net, signed, is less.
pub fn net_order()
    ensures { (rs : List Rule) (g h : ℕ) → less_left rs g h ≡ int_lt (net rs h) (net rs g) }
{}

/// Each rule's share is straight on every stretch that has none of its breakpoints strictly inside, and net on every one that
/// has none of any rule's. Breakpoints are the borders, one by one, but that a fade's second is one past its last border.
pub fn straight()
    ensures one { (r : Rule) (from to : ℕ) → clear (breaks r []) from to ≡ true → Straight (share r) from to (share r from) (slope_by r from) }
    ensures all { (rs : List Rule) (from to : ℕ) → clear (breakpoints rs) from to ≡ true → Straight (net rs) from to (net rs from) (slope rs from) }
    ensures borders { (rs : List Rule) → SameOrPast (breakpoints rs) (borders rs) }
{}

/// The lowest net from an earning on, up to the bound, is that of one of these earnings, and of none of them is less left; there
/// is none just where no earning is. From the beginning of a line on it is the lesser of the line's two ends and of the lowest
/// beyond.
pub fn lowest()
    ensures least { (rs : List Rule) (b x : ℕ) → Lowest (net rs) x (suc b) (lowest_from rs b x) }
    ensures down { (rs : List Rule) (b from to : ℕ) (v d : ℤ) → NetLine rs b from to v d → lowest_from rs b from ≡ Some (lowest_with from to v d (lowest_from rs b to)) }
{}

/// Who loses on a line is told by it and by the lowest beyond.
pub fn loses_on_a_line()
    ensures { (rs : List Rule) (b from to : ℕ) (v d : ℤ) → NetLine rs b from to v d → (g : ℕ) → from ≤ g → g < to → loses rs b g ≡ loses_at from to v d (lowest_from rs b to) g }
{}

/// Calls that lay only rules of some kinds get the same answers whether a book can do only these kinds or all.
pub fn kinds()
    ensures { (can : ℕ → Bool) (l : Limits) (rs : List Rule) (cs : List Call) → all_lay_only can cs ≡ true → answers (with_kinds can l) rs cs ≡ answers (with_kinds whole l) rs cs }
{}
