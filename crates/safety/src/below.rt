//! The last gross of a segment of which less than so much is left.
ghost use Rattle.std.specs.Prelude.{◌<◌, pos, ◌-ℤ◌, ◌≤ℤ◌, ◌<ℤ◌};
ghost use Rattle.segments.specs.Segments.{Sized, FirstAbove};
ghost use Rattle.safety.specs.Less.{LastBelow};

use segments::Segment;

/// The first gross with at least this net, on a segment that rises from less. Net is in whole ten-thousandths: at least so much is
/// more than one less.
fn first_as_much(segment: Segment, level: i64) -> Option<u32>
    requires some { segment.from < segment.to }
    requires rises { pos 0 ≤ℤ segment.slope }
    requires begins { segment.net <ℤ level }
    ensures { FirstAbove segment (level -ℤ pos 1) result }
{
    segment.first_above(level - 1)
}

/// The last gross with less than this net, if there is one.
#[tactic(auto, using(crate::proofs::Last::none_below, crate::proofs::Last::rises))]
pub(crate) fn last_below(segment: Segment, level: i64) -> Option<u32>
    requires sized { Sized segment }
    requires some { segment.from < segment.to }
    ensures { LastBelow segment level result }
{
    let last = segment.to - 1;
    if segment.net_at(last) < level {
        return Some(last);
    }
    // A line is least at one of its ends.
    if level <= segment.net {
        return None;
    }
    // It begins with less and ends with as much, so it rises: the last with less is just before the first with as much.
    let first = first_as_much(segment, level)?;
    Some(first - 1)
}
