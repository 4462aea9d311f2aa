//! One rule: is it in range, and what it lets in and out.
ghost use Rattle.std.specs.Prelude.{◌≡◌, ◌-◌, ◌*◌, ◌&&◌, nat_le, nat_lt};
ghost use Rattle.raise.specs.Rules.{pick, lesser, plus, minus};
ghost use Rattle.raise.specs.Calls.{fine};
ghost use Rattle.wire.specs.Meaning.{meant};

use raise::ten_thousandths;
use wire::Rule;

const MOST_EARNED: u32 = 1_000_000_000;

const MOST_RATE: u32 = 20_000;

const MOST_SUM: u32 = 100_000_000;

/// What comes in and what goes out, in ten-thousandths of a unit.
#[derive(Clone, Copy, Debug, PartialEq, Eq)]
pub struct Flows {
    /// what comes in: what is earned, or what is given
    pub inflow: u64,
    /// what goes out: what is taken
    pub outflow: u64,
}

/// Borders in order and at most 1,000,000,000, a rate of at most 20,000, a sum of at most 100,000,000.
#[tactic(auto, unfolding(raise::specs::Calls::fine))]
pub fn is_fine(rule: Rule) -> bool
    ensures { result ≡ fine (meant rule) }
{
    match rule {
        Rule::Take { from, to, rate } | Rule::Give { from, to, rate } => {
            from < to && to <= MOST_EARNED && rate <= MOST_RATE
        }
        Rule::TakeSum { from, to, sum } | Rule::GiveSum { from, to, sum } => {
            from < to && to <= MOST_EARNED && sum <= MOST_SUM
        }
        Rule::Fade { from, rate, sum } => {
            from <= MOST_EARNED && rate <= MOST_RATE && sum <= MOST_SUM
        }
    }
}

/// A rate of what is earned above `from`, up to `to`.
fn by_rate(from: u32, to: u32, rate: u32, gross: u32) -> u64
    ensures { result ≡ rate * (lesser gross to - from) }
{
    u64::from(rate) * u64::from(gross.min(to).saturating_sub(from))
}

/// A sum where the gross is `from` or more and below `to`.
fn by_sum(from: u32, to: u32, sum: u32, gross: u32) -> u64
    ensures { result ≡ pick (nat_le from gross && nat_lt gross to) (10000 * sum) 0 }
{
    if from <= gross && gross < to {
        ten_thousandths(sum)
    } else {
        0
    }
}

/// A sum, less a rate for each unit above `from`, and nothing where that would be below nothing.
fn by_fade(from: u32, rate: u32, sum: u32, gross: u32) -> u64
    ensures { result ≡ 10000 * sum - rate * (gross - from) }
{
    ten_thousandths(sum).saturating_sub(u64::from(rate) * u64::from(gross.saturating_sub(from)))
}

fn gives(inflow: u64) -> Flows
    ensures { result ≡ record { inflow = inflow; outflow = 0 } }
{
    Flows { inflow, outflow: 0 }
}

fn takes(outflow: u64) -> Flows
    ensures { result ≡ record { inflow = 0; outflow = outflow } }
{
    Flows { inflow: 0, outflow }
}

/// What a rule lets in and out of a gross.
#[tactic(auto, unfolding(raise::specs::Rules::plus, raise::specs::Rules::minus))]
pub(crate) fn flows_by(rule: Rule, gross: u32) -> Flows
    ensures inflow { result.inflow ≡ plus (meant rule) gross }
    ensures outflow { result.outflow ≡ minus (meant rule) gross }
{
    match rule {
        Rule::Take { from, to, rate } => takes(by_rate(from, to, rate, gross)),
        Rule::Give { from, to, rate } => gives(by_rate(from, to, rate, gross)),
        Rule::TakeSum { from, to, sum } => takes(by_sum(from, to, sum, gross)),
        Rule::GiveSum { from, to, sum } => gives(by_sum(from, to, sum, gross)),
        Rule::Fade { from, rate, sum } => gives(by_fade(from, rate, sum, gross)),
    }
}
