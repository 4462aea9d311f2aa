//! A rule in the words of its slot: the number of its kind, and its three numbers.
ghost use Rattle.std.specs.Prelude.{◌≡◌};
ghost use Rattle.wire.specs.Meaning.{meant};
ghost use Rattle.book.specs.Held.{slot, slot_rule};
ghost use Rattle.book.specs.Meant.{meant_if};

use crate::rules::is_fine;
use wire::{Rule, RuleKind};

/// How many words a slot has.
pub(crate) const SLOT: usize = 4;

/// The rule that a slot holds, if it is one in range.
#[tactic(auto, unfolding(raise::specs::Calls::fine))]
pub(crate) fn read_slot(slot: &[u64; SLOT]) -> Option<Rule>
    ensures { meant_if result ≡ slot_rule slot.now }
{
    let [kind, first, second, last] = *slot;
    let kind = u8::try_from(kind).ok()?;
    let kind = RuleKind::try_from(kind).ok()?;
    let first = u32::try_from(first).ok()?;
    let second = u32::try_from(second).ok()?;
    let last = u32::try_from(last).ok()?;
    let rule = kind.rule([first, second, last]);
    is_fine(rule).then_some(rule)
}

/// The words of a rule. No `From`: neither a rule nor an array is of this crate. The cast of a kind is its number.
pub(crate) fn slot_of(rule: Rule) -> [u64; SLOT]
    ensures { result ≡ slot (meant rule) }
{
    let [first, second, last] = rule.numbers().map(u64::from);
    [rule.kind() as u64, first, second, last]
}
