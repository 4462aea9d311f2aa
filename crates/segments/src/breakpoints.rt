//! The next breakpoint above a gross.
ghost use Rattle.std.specs.Prelude.{◌≡◌, ◌≤◌};
ghost use Rattle.raise.specs.Net.{breakpoints};
ghost use Rattle.book.specs.Meant.{all_meant};
ghost use Rattle.segments.specs.Points.{nearer, least_above, next_breakpoint, NextBreakpoints};
ghost use Rattle.segments.specs.Spans.{nearest};

use crate::spans::{Span, span_of};
use wire::Rule;

/// The point, if it is above the gross and before `next`.
fn nearer(gross: u32, point: u64, next: u32) -> u32
    ensures { result ≡ nearer gross point next }
{
    if u64::from(gross) < point && point < u64::from(next) {
        // No `From` narrows; it is below `next`.
        point as u32
    } else {
        next
    }
}

/// The nearest end of the span above the gross, if it is before `next`.
fn nearest(span: Span, gross: u32, next: u32) -> u32
    ensures { result ≡ nearest span gross next }
{
    let next = span.to.map_or(next, |to| nearer(gross, to, next));
    nearer(gross, u64::from(span.from), next)
}

/// The least breakpoint above the gross, or `end` where none before it is: by the first rule, and the others.
#[tactic(auto, using(crate::proofs::Points::by_no_rule, crate::proofs::Points::by_rule))]
fn least_above(rules: &[Rule], gross: u32, end: u32) -> u32
    ensures { result ≡ least_above (breakpoints (all_meant rules.now)) gross end }
{
    let [rule, rest @ ..] = rules else {
        return end;
    };
    nearest(span_of(*rule), gross, least_above(rest, gross, end))
}

/// The next breakpoint above a gross, or one past the bound where there is none up to it: the last segment ends there. Any rules
/// will do, those too that no book can hold, so that a `&Book` would ask more.
#[tactic(auto, using(crate::proofs::Points::next_breakpoints, crate::proofs::Points::least_within))]
pub fn next_breakpoint(rules: &[Rule], bound: u32, gross: u32) -> u32
    requires { bound ≤ 1000000000 }
    ensures next { result ≡ next_breakpoint (all_meant rules.now) bound gross }
    ensures low { result ≤ 1000000001 }
    ensures least { NextBreakpoints }
{
    least_above(rules, gross, bound + 1)
}
