//! The losing part of one segment: a run of grosses that touches one of its ends.
ghost use Rattle.std.specs.Prelude.{◌≡◌, ◌<◌, ◌≤ℤ◌, ◌<ℤ◌, pos};
ghost use Rattle.raise.specs.Lowest.{lower_than};
ghost use Rattle.lowest.specs.Table.{SizedEntry, loses_on};
ghost use Rattle.losses.specs.Parts.{PartOf};

use lowest::Entry;
use raise::LosingRow;

/// Is less than this left of some gross beyond the segment?
fn lower_beyond(entry: Entry, net: i64) -> bool
    ensures { result ≡ lower_than entry.lowest_above net }
{
    entry.lowest_above.is_some_and(|lowest| lowest < net)
}

/// On a segment that falls everybody loses by the next unit, except whoever earns its last, who loses by what lies beyond, or not
/// at all.
fn falling_part(entry: Entry) -> Option<LosingRow>
    requires sized { SizedEntry entry }
    requires some { entry.segment.from < entry.segment.to }
    requires falls { entry.segment.slope <ℤ pos 0 }
    ensures { PartOf (loses_on entry) entry.segment.from entry.segment.to result }
{
    let segment = entry.segment;
    let last = segment.to - 1;
    let end = if lower_beyond(entry, segment.net_at(last)) {
        segment.to
    } else {
        last
    };
    if segment.from < end {
        Some(LosingRow {
            first: segment.from,
            last: end - 1,
        })
    } else {
        None
    }
}

/// On one that doesn't fall those lose who have more than the lowest beyond.
fn part_above(entry: Entry) -> Option<LosingRow>
    requires some { entry.segment.from < entry.segment.to }
    requires rises { pos 0 ≤ℤ entry.segment.slope }
    ensures { PartOf (loses_on entry) entry.segment.from entry.segment.to result }
{
    let first = entry.segment.first_above(entry.lowest_above?)?;
    Some(LosingRow {
        first,
        last: entry.segment.to - 1,
    })
}

/// The same; if anybody loses there, the last does. Only then is it divided, which takes longer than all else.
#[tactic(auto, using(crate::proofs::Risen::nobody))]
fn rising_part(entry: Entry) -> Option<LosingRow>
    requires sized { SizedEntry entry }
    requires some { entry.segment.from < entry.segment.to }
    requires rises { pos 0 ≤ℤ entry.segment.slope }
    ensures { PartOf (loses_on entry) entry.segment.from entry.segment.to result }
{
    let last = entry.segment.to - 1;
    if !lower_beyond(entry, entry.segment.net_at(last)) {
        return None;
    }
    part_above(entry)
}

/// The grosses of a segment that lose.
pub(crate) fn losing_part(entry: Entry) -> Option<LosingRow>
    requires sized { SizedEntry entry }
    requires some { entry.segment.from < entry.segment.to }
    ensures { PartOf (loses_on entry) entry.segment.from entry.segment.to result }
{
    if entry.segment.slope < 0 {
        falling_part(entry)
    } else {
        rising_part(entry)
    }
}
