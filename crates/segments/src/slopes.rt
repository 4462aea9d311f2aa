//! Which rules hold at a gross, as bits, and how fast net rises by them.
ghost use Rattle.std.specs.Prelude.{◌≡◌, ℕ, ◌<◌, ◌≤◌, true, length};
ghost use Rattle.raise.specs.Net.{breakpoints, clear};
ghost use Rattle.book.specs.Meant.{all_meant};
ghost use Rattle.segments.specs.Bits.{marked, Holding, slope_on};

use crate::spans::{holds_at, pace_of};
use book::Book;
use wire::Rule;

/// The i-th bit of a number.
fn is_set(bits: u64, i: usize) -> bool
    requires { i < 64 }
    ensures { result ≡ marked bits i }
{
    bits >> i & 1 == 1
}

/// Which rules hold at a gross, the i-th bit for the i-th rule. The same hold on all of the segment that begins there. At most 64
/// rules, any, those too that no book can hold, so that a `&Book` would ask more.
#[tactic(auto, using(crate::proofs::Marks::it_holds, crate::proofs::Marks::it_fails, crate::proofs::Marks::all_rules))]
pub fn holding_at(rules: &[Rule], gross: u32) -> u64
    requires { length rules.now ≤ 64 }
    ensures here { Holding (all_meant rules.now) gross result }
    ensures along { (to g : ℕ) → clear (breakpoints (all_meant rules.now)) gross to ≡ true → gross ≤ g → g < to → Holding (all_meant rules.now) g result }
{
    let mut bits = 0;
    for (i, rule) in rules.iter().enumerate() {
        if holds_at(*rule, gross) {
            bits |= 1 << i;
        }
    }
    bits
}

/// How fast net rises where just the rules hold whose bits are set: by the unit itself, and by what they do.
#[tactic(auto, using(crate::proofs::Paces::sum_fits), unfolding(crate::specs::Bits::slope_on))]
pub(crate) fn slope_on(book: &Book, holding: u64) -> i64
    ensures { result ≡ slope_on (marked holding) book.now.rules }
{
    let rules = book.rules();
    let mut slope = 10_000;
    for (i, rule) in rules.iter().enumerate() {
        if is_set(holding, i) {
            slope += pace_of(*rule);
        }
    }
    slope
}
