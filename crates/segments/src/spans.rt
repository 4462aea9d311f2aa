//! One rule: where it holds, and how fast its share rises there.
ghost use Rattle.std.specs.Prelude.{◌≡◌};
ghost use Rattle.raise.specs.Rules.{fades};
ghost use Rattle.raise.specs.Net.{holds, pace};
ghost use Rattle.wire.specs.Meaning.{meant};
ghost use Rattle.segments.specs.Spans.{span, SpanEnds, SpanHolds};

use wire::Rule;

/// From a rule's first breakpoint on, up to before its second, or for good where it has no second.
#[derive(Clone, Copy, Debug, PartialEq, Eq)]
pub struct Span {
    /// the first gross at which the rule holds
    pub from: u32,
    /// the first at which it no longer does
    pub to: Option<u64>,
}

/// One past the last unit at which something may be left of a fade; a rate of 0 never uses it up.
fn faded_at(from: u32, rate: u32, sum: u32) -> Option<u64>
    ensures { result ≡ (span (fades from rate sum)).to }
{
    let units = raise::ten_thousandths(sum).checked_div(u64::from(rate))?;
    Some(u64::from(from) + units + 1)
}

/// The stretch on which a rule holds; its ends are the rule's breakpoints.
#[tactic(auto, using(crate::proofs::Points::span_ends, crate::proofs::Points::span_holds))]
pub fn span_of(rule: Rule) -> Span
    ensures span { result ≡ span (meant rule) }
    ensures ends { SpanEnds }
    ensures holds { SpanHolds }
{
    match rule {
        Rule::Take { from, to, .. }
        | Rule::Give { from, to, .. }
        | Rule::TakeSum { from, to, .. }
        | Rule::GiveSum { from, to, .. } => Span {
            from,
            to: Some(u64::from(to)),
        },
        Rule::Fade { from, rate, sum } => Span {
            from,
            to: faded_at(from, rate, sum),
        },
    }
}

/// Does a rule hold at a gross?
pub(crate) fn holds_at(rule: Rule, gross: u32) -> bool
    ensures { result ≡ holds (meant rule) gross }
{
    let span = span_of(rule);
    span.from <= gross && span.to.is_none_or(|to| u64::from(gross) < to)
}

/// How fast a rule's share rises for each unit where it holds, in ten-thousandths of a unit.
pub(crate) fn pace_of(rule: Rule) -> i64
    ensures { result ≡ pace (meant rule) }
{
    match rule {
        Rule::Take { rate, .. } | Rule::Fade { rate, .. } => -i64::from(rate),
        Rule::Give { rate, .. } => i64::from(rate),
        Rule::TakeSum { .. } | Rule::GiveSum { .. } => 0,
    }
}
