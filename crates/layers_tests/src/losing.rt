//! Who loses, how much, and from where on it is safe. Most of these books would get another answer in a wrong way that is easily
//! taken.
use crate::books::*;
use book::Book;
use losses::{ROW_WORDS, most_lost, read_row, row_from, write_rows};
use lowest::{ENTRY_WORDS, most_entries};
use raise::LosingRow;
use safety::safe_from;
use std::process::Abort;
use std::test::Fail;
use wire::{Rule, RuleKind};

/// As many segments, and so as many rows, as 64 rules make at most.
const MOST_SEGMENTS: usize = 129;

const TABLE: usize = ENTRY_WORDS * MOST_SEGMENTS;

const ROWS: usize = ROW_WORDS * MOST_SEGMENTS;

fn row(first: u32, last: u32) -> LosingRow {
    LosingRow { first, last }
}

/// The rows of the book are just these.
pub(crate) fn lose(rt: &impl Abort, book: &Book, expected: &[(u32, u32)]) {
    assert!(rt; most_entries(book) <= MOST_SEGMENTS);
    let mut table = [7; TABLE];
    let mut rows = [7; ROWS];
    let count = write_rows(book, &mut table, &mut rows);
    assert_eq!(rt; count, expected.len());
    let (words, _) = rows.as_chunks::<ROW_WORDS>();
    for (words, (first, last)) in words.iter().zip(expected) {
        assert_eq!(rt; read_row(words), Some(row(*first, *last)));
    }
}

/// From each gross on the row is this.
fn told(rt: &impl Abort, book: &Book, expected: &[(u32, Option<LosingRow>)]) {
    assert!(rt; most_entries(book) <= MOST_SEGMENTS);
    let mut table = [7; TABLE];
    let mut rows = [7; ROWS];
    for (gross, row) in expected {
        assert_eq!(rt; row_from(book, &mut table, &mut rows, *gross), *row);
    }
}

/// Of those from the one gross to the other nobody loses more than this.
pub(crate) fn most(rt: &impl Abort, book: &Book, expected: &[(u32, u32, u64)]) {
    assert!(rt; most_entries(book) <= MOST_SEGMENTS);
    let mut table = [7; TABLE];
    for (first, last, most) in expected {
        assert_eq!(rt; most_lost(book, &mut table, row(*first, *last)), *most);
    }
}

/// Each gross is safe from the one beside it on, or from nowhere.
pub(crate) fn safe(rt: &impl Abort, book: &Book, expected: &[(u32, Option<u32>)]) {
    for (gross, from) in expected {
        assert_eq!(rt; safe_from(book, *gross), *from);
    }
}

/// Of 1,499 there are 1,599.50 left, of 1,500 only 1,400, and no more than 1,500 before 1,625.
#[test]
fn a_family(rt: HostRuntime) -> Result<(), Fail> {
    let book = family()?;
    lose(&rt, &book, &[(1_101, 1_499)]);
    let rows = [
        (0, Some(row(1_101, 1_499))),
        (1_300, Some(row(1_300, 1_499))),
        (1_500, None),
    ];
    told(&rt, &book, &rows);
    let most_of = [
        (1_101, 1_499, 1_995_000),
        (1_300, 1_300, 1_000_000),
        (0, 1_100, 0),
        (1_499, u32::MAX, 1_995_000),
        (1_200, 1_199, 0),
    ];
    most(&rt, &book, &most_of);
    let safe_at = [
        (1_000, Some(1_001)),
        (1_300, Some(1_625)),
        (1_499, Some(1_750)),
        (5_000, None),
    ];
    safe(&rt, &book, &safe_at);
    Ok(())
}

/// A bound, rules, and the rows of those who lose.
type Case<'a> = (u32, &'a [Rule], &'a [(u32, u32)]);

fn all_lose(rt: &impl Abort, cases: &[Case<'_>]) -> Result<(), Fail> {
    for (bound, rules, rows) in cases {
        lose(rt, &book_with(*bound, rules)?, rows);
    }
    Ok(())
}

/// By itself neither of these takes more than all; together they do.
#[test]
fn two_rules_together(rt: HostRuntime) -> Result<(), Fail> {
    let rules = [RuleKind::Take.rule([10, 20, 6_000]); 2];
    all_lose(&rt, &[(40, &rules[..1], &[]), (40, &rules, &[(9, 19)])])
}

/// Whoever earns 960 has more with one unit more, and 20 less with 100 more: 940 are left of 1,060, and of
/// 1,080 as much as of 960.
#[test]
fn not_by_the_next_unit(rt: HostRuntime) -> Result<(), Fail> {
    let book = book_with(2_000, &[RuleKind::Take.rule([1_000, 1_060, 20_000])])?;
    lose(&rt, &book, &[(941, 1_059)]);
    most(&rt, &book, &[(960, 960, 200_000)]);
    safe(&rt, &book, &[(940, Some(941)), (960, Some(1_080))]);
    Ok(())
}

/// A sum of 3 is taken from 10 on, and no more from 20 on. Of 9 as much is left as of 12, and of 10 and 11 less.
#[test]
fn from_the_border_on(rt: HostRuntime) -> Result<(), Fail> {
    let sum = [RuleKind::TakeSum.rule([10, 20, 3])];
    all_lose(
        &rt,
        &[(9, &sum, &[]), (10, &sum, &[(8, 9)]), (30, &sum, &[(8, 9)])],
    )?;
    let book = book_with(30, &sum)?;
    safe(&rt, &book, &[(8, Some(11)), (9, Some(12)), (10, Some(11))]);
    Ok(())
}

/// A sum of 9 that fades by 1.2 of each unit above 5: it is used up at 12 1/2, and from 13 on net rises again. If it went on below
/// nothing, everybody up to the bound would lose.
#[test]
fn not_below_nothing(rt: HostRuntime) -> Result<(), Fail> {
    let book = book_with(40, &[RuleKind::Fade.rule([5, 12_000, 9])])?;
    lose(&rt, &book, &[(4, 11)]);
    safe(&rt, &book, &[(5, Some(14)), (11, Some(13)), (12, Some(13))]);
    Ok(())
}

/// Of 6 a ten-thousandth less is left than of 5: 4.9999 of 5, and in the second book 5 of 5.0001, which no rounding to cents tells
/// apart. In the last it is as much.
#[test]
fn not_rounded(rt: HostRuntime) -> Result<(), Fail> {
    let rules = [
        RuleKind::Take.rule([5, 6, 10_001]),
        RuleKind::Give.rule([0, 1, 1]),
    ];
    let as_much = [RuleKind::Take.rule([5, 6, 10_000])];
    let cases: [Case<'_>; 3] = [
        (6, &rules[..1], &[(5, 5)]),
        (6, &rules, &[(5, 5)]),
        (6, &as_much, &[]),
    ];
    all_lose(&rt, &cases)
}

/// Nobody, everybody below the bound, and two rows: of 12 no more is left than of 14, so it alone doesn't lose between 9 and 13.
#[test]
fn from_none_to_all(rt: HostRuntime) -> Result<(), Fail> {
    let all = [RuleKind::Take.rule([0, MOST, 12_000])];
    let two = [
        RuleKind::Take.rule([10, 12, 20_000]),
        RuleKind::Take.rule([13, 14, 20_000]),
    ];
    let cases: [Case<'_>; 4] = [
        (0, &[], &[]),
        (MOST, &[], &[]),
        (MOST, &all, &[(0, MOST - 1)]),
        (30, &two, &[(9, 11), (13, 13)]),
    ];
    all_lose(&rt, &cases)?;
    let book = book_with(MOST, &all)?;
    safe(&rt, &book, &[(0, None), (MOST - 1, None), (u32::MAX, None)]);
    Ok(())
}
