//! The way down: the hinges that are not undone yet, what they come to, the segment that ends where the walk stands, and the next one.
ghost use Rattle.std.specs.Prelude.{◌≡◌, ℕ, ◌<◌, ◌≤◌, ◌-◌, length, None};
ghost use Rattle.hinges.specs.Below.{BreakpointsBelow};
ghost use Rattle.hinges.specs.Hinges.{SizedHinge, Sized, Ordered, segment_by, sum_of, SegmentsTell};
ghost use Rattle.hinges.specs.Sweep.{last_at, with_hinge, without_hinge, without_nth, line_of, begun, one_back, SweepAt, UndoneAt, Fewer, BackTo, Room};

use crate::hinge::Hinge;
use segments::Segment;

/// The first so many hinges, and what they come to at a gross: net, and the slope.
#[derive(Clone, Copy, Debug, PartialEq, Eq)]
pub struct Sweep {
    /// how many hinges are not undone: these are the first of them
    pub many: usize,
    /// what they come to, in ten-thousandths
    pub net: i64,
    /// by how much that rises for each unit more, in ten-thousandths
    pub slope: i64,
}

impl Sweep {
    /// One hinge more, that is not above the gross.
    fn with(self, hinge: Hinge, gross: u32) -> Sweep
        requires many { self.many < 193 }
        requires room { Room self }
        requires sized { SizedHinge hinge }
        requires order { hinge.at ≤ gross }
        requires low { gross ≤ 1000000000 }
        ensures { result ≡ with_hinge self hinge gross }
    {
        Sweep {
            many: self.many + 1,
            net: self.net + hinge.line_at(gross),
            slope: self.slope + hinge.pace,
        }
    }

    /// The line that they come to, from one gross to another.
    fn line(self, from: u32, gross: u32) -> Segment
        requires room { Room self }
        requires order { from ≤ gross }
        requires low { gross ≤ 1000000000 }
        ensures { result ≡ line_of self from gross }
    {
        Segment {
            from,
            to: gross + 1,
            net: self.net - self.slope * i64::from(gross - from),
            slope: self.slope,
        }
    }

    /// One hinge less, at the gross where it is.
    #[tactic(auto, using(crate::proofs::Adding::kept_difference))]
    fn without(self, hinge: Hinge) -> Sweep
        requires some { 0 < self.many }
        requires room { Room self }
        requires sized { SizedHinge hinge }
        ensures { result ≡ without_hinge self hinge }
    {
        Sweep {
            many: self.many - 1,
            net: self.net - hinge.jump,
            slope: self.slope - hinge.pace,
        }
    }

    /// One unit before, where none of them is.
    fn one_back(self) -> Sweep
        requires { Room self }
        ensures { result ≡ one_back self }
    {
        Sweep {
            many: self.many,
            net: self.net - self.slope,
            slope: self.slope,
        }
    }

    /// The sweep at a gross: all hinges up to it, and what they come to there.
    pub fn up_to(hinges: &[Hinge], gross: u32) -> Sweep
        requires sized { Sized hinges.now }
        requires ordered { Ordered hinges.now }
        requires low { gross ≤ 1000000000 }
        ensures { SweepAt hinges.now gross result }
    {
        let mut sweep = Sweep {
            many: 0,
            net: 0,
            slope: 0,
        };
        for hinge in hinges {
            if gross < hinge.at {
                return sweep;
            }
            sweep = sweep.with(*hinge, gross);
        }
        sweep
    }

    /// Where the last of them is; 0 where all are undone.
    fn last_at(self, hinges: &[Hinge]) -> u32
        requires { self.many ≤ length hinges.now }
        ensures { result ≡ last_at hinges.now self.many }
    {
        match self.many.checked_sub(1) {
            Some(i) => hinges[i].at,
            None => 0,
        }
    }

    /// The segment that ends with the gross: from where the last of them is.
    pub fn segment(self, hinges: &[Hinge], gross: u32) -> Segment
        requires sized { Sized hinges.now }
        requires ordered { Ordered hinges.now }
        requires low { gross ≤ 1000000000 }
        requires sweep { SweepAt hinges.now gross self }
        ensures segment { result ≡ segment_by (sum_of hinges.now gross) gross }
        ensures tell { SegmentsTell }
        ensures greatest { BreakpointsBelow }
    {
        self.line(self.last_at(hinges), gross)
    }

    /// The sweep at the beginning of the segment that ends where it stands: as many hinges, and the net of that beginning.
    pub fn back_to(self, segment: Segment) -> Sweep
        ensures begun { result ≡ begun self segment }
        ensures back { BackTo self segment result }
    {
        Sweep {
            many: self.many,
            net: segment.net,
            slope: self.slope,
        }
    }

    /// Without the last of them, if there is one and it is not below the gross; else none.
    pub fn without_last(self, hinges: &[Hinge], gross: u32) -> Option<Sweep>
        requires sized { Sized hinges.now }
        requires ordered { Ordered hinges.now }
        requires low { gross ≤ 1000000000 }
        requires undone { UndoneAt hinges.now gross self }
        ensures undone { result ≡ without_nth hinges.now gross self self.many }
        ensures fewer { Fewer hinges.now gross self result }
    {
        let i = self.many.checked_sub(1)?;
        let hinge = hinges[i];
        if hinge.at < gross {
            return None;
        }
        Some(self.without(hinge))
    }

    /// The sweep one below a gross at which none of them is any more.
    pub fn one_below(self, hinges: &[Hinge], gross: u32) -> Sweep
        requires sized { Sized hinges.now }
        requires ordered { Ordered hinges.now }
        requires low { gross ≤ 1000000000 }
        requires some { 0 < gross }
        requires undone { UndoneAt hinges.now gross self }
        requires none { Fewer hinges.now gross self None }
        ensures { SweepAt hinges.now (gross - 1) result }
    {
        self.one_back()
    }

    /// The sweep one below a segment that doesn't begin at 0: all hinges where it begins are undone.
    pub fn past(self, hinges: &[Hinge], segment: Segment) -> Sweep
        requires sized { Sized hinges.now }
        requires ordered { Ordered hinges.now }
        requires low { segment.from ≤ 1000000000 }
        requires some { 0 < segment.from }
        requires sweep { (g : ℕ) × SweepAt hinges.now g self × (segment ≡ segment_by (sum_of hinges.now g) g) }
        ensures { SweepAt hinges.now (segment.from - 1) result }
    {
        let mut sweep = self.back_to(segment);
        while let Some(fewer) = sweep.without_last(hinges, segment.from) {
            sweep = fewer;
        }
        sweep.one_below(hinges, segment.from)
    }
}
