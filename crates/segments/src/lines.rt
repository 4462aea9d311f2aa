//! A segment: the grosses from one on, up to before the next breakpoint, with the line that net is on it.
ghost use Rattle.std.specs.Prelude.{◌≡◌, ◌+◌, ◌<◌, ◌≤◌, min, pos, ◌≤ℤ◌};
ghost use Rattle.raise.specs.Net.{on_line};
ghost use Rattle.segments.specs.Segments.{segment_at, SegmentOf, Sized, SegmentsCover, FirstAbove};

use crate::breakpoints::next_breakpoint;
use crate::slopes::{holding_at, slope_on};
use book::Book;

/// The grosses from `from` on, before `to`; what is left of `from`, and by how much net rises for each unit more.
#[derive(Clone, Copy, Debug, PartialEq, Eq)]
pub struct Segment {
    /// the first gross on it, in units
    pub from: u32,
    /// one past the last
    pub to: u32,
    /// what is left of the first, in ten-thousandths
    pub net: i64,
    /// by how much net rises for each unit more, in ten-thousandths: 10,000 less the effective marginal rate
    pub slope: i64,
}

/// The gross one past so many steps, or the greatest number there is, where that is less.
fn one_past(from: u32, steps: u64) -> u64
    ensures { result ≡ min (from + steps + 1) 18446744073709551615 }
{
    u64::from(from).saturating_add(steps).saturating_add(1)
}

impl Segment {
    /// Net at a gross on the segment, by its line.
    pub fn net_at(self, gross: u32) -> i64
        requires sized { Sized self }
        requires low { self.from ≤ gross }
        requires high { gross < self.to }
        ensures { result ≡ on_line self.from self.net self.slope gross }
    {
        self.net + self.slope * i64::from(gross - self.from)
    }

    /// The first gross on a segment that doesn't fall of which more is left than so much, if there is one. Of all after it on the
    /// segment more is, too.
    #[tactic(auto, using(crate::proofs::Above::found_above, crate::proofs::Above::none_above))]
    pub fn first_above(self, level: i64) -> Option<u32>
        requires some { self.from < self.to }
        requires rises { pos 0 ≤ℤ self.slope }
        ensures { FirstAbove self level result }
    {
        if level < self.net {
            return Some(self.from);
        }
        // Unsigned, so that no size is asked for: any two levels have a difference, and a sum too large is past every `to`.
        let steps = level
            .abs_diff(self.net)
            .checked_div(self.slope.unsigned_abs())?;
        let first = one_past(self.from, steps);
        if first < u64::from(self.to) {
            // No `From` narrows; it is below `to`.
            Some(first as u32)
        } else {
            None
        }
    }
}

/// The segment from a gross up to the bound on. Those from 0 on, one after the other, cover all grosses up to the bound without
/// gap or overlap, and are at most two for each rule and one more.
pub fn segment_from(book: &Book, from: u32) -> Segment
    requires { from ≤ book.now.bound }
    ensures segment { result ≡ segment_at book.now.rules book.now.bound from }
    ensures line { SegmentOf book.now.rules book.now.bound result }
    ensures sized { Sized result }
    ensures covers { SegmentsCover }
{
    let rules = book.rules();
    Segment {
        from,
        to: next_breakpoint(rules, book.bound(), from),
        net: book.net_of(from),
        slope: slope_on(book, holding_at(rules, from)),
    }
}
