//! Segments, going up and down, and the table of them.
use crate::books::*;
use book::Book;
use hinges::{Sweep, hinges_of};
use lowest::{ENTRY_WORDS, Entry, read_entry, words_for, write_table};
use segments::{Segment, segment_from};
use std::process::Abort;
use std::test::Fail;

/// Room for the table of 64 rules.
const WORDS: usize = 774;

pub(crate) fn entry(from: u32, to: u32, net: i64, slope: i64, lowest_above: Option<i64>) -> Entry {
    let segment = Segment {
        from,
        to,
        net,
        slope,
    };
    Entry {
        segment,
        lowest_above,
    }
}

/// From where each begins on.
pub(crate) fn up(rt: &impl Abort, book: &Book, expected: &[Entry]) -> Result<(), Fail> {
    for entry in expected {
        if entry.segment.from > book.bound() {
            return Err(Fail::new("above the bound"));
        }
        assert_eq!(rt; segment_from(book, entry.segment.from), entry.segment);
    }
    Ok(())
}

/// The segment that ends with the last gross before `to`, and the one before that, which doesn't begin above it.
fn down(rt: &impl Abort, book: &Book, to: u32, expected: [Entry; 2]) -> Result<(), Fail> {
    if to == 0 || to > MOST + 1 {
        return Err(Fail::new("nothing below, or above every bound"));
    }
    let in_order = hinges_of(book);
    let hinges = in_order.as_slice();
    let sweep = Sweep::up_to(hinges, to - 1);
    let segment = sweep.segment(hinges, to - 1);
    assert_eq!(rt; segment, expected[1].segment);
    if segment.from == 0 || segment.from > to - 1 {
        return Err(Fail::new("nothing below"));
    }
    let below = sweep.past(hinges, segment);
    assert_eq!(rt;
        below.segment(hinges, segment.from - 1),
        expected[0].segment
    );
    Ok(())
}

/// The table of the book has just these entries, the last segment first.
pub(crate) fn stands(rt: &impl Abort, book: &Book, expected: &[Entry]) {
    assert!(rt; words_for(book) <= WORDS);
    let mut words = [7; WORDS];
    let count = write_table(&mut words, 0, book);
    assert_eq!(rt; count, expected.len());
    let (entries, _) = words.as_chunks::<ENTRY_WORDS>();
    for (words, entry) in entries.iter().zip(expected.iter().rev()) {
        assert_eq!(rt; read_entry(words), Some(*entry));
    }
}

/// Between two breakpoints of a family's book, 1,500 and 1,501, lies a segment of one gross; from 1,501 on the aid is used up, and
/// net rises faster.
#[test]
fn of_a_family(rt: HostRuntime) -> Result<(), Fail> {
    let book = family()?;
    let segments = [
        entry(0, 500, 5_000_000, 10_000, Some(10_000_000)),
        entry(500, 1_000, 10_000_000, 7_000, Some(13_500_000)),
        entry(1_000, 1_500, 13_500_000, 5_000, Some(14_000_000)),
        entry(1_500, 1_501, 14_000_000, 5_000, Some(14_008_000)),
        entry(1_501, 3_000, 14_008_000, 8_000, Some(26_000_000)),
        entry(3_000, 5_001, 26_000_000, 6_000, None),
    ];
    up(&rt, &book, &segments)?;
    down(&rt, &book, 5_001, [segments[4], segments[5]])?;
    down(&rt, &book, 1_501, [segments[2], segments[3]])?;
    stands(&rt, &book, &segments);
    Ok(())
}
