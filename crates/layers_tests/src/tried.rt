//! What is told of each gross, beside what is found by trying every earning.
use crate::books::*;
use book::Book;
use losses::{ROW_WORDS, row_from};
use lowest::{ENTRY_WORDS, most_entries};
use safety::safe_from;
use std::process::Abort;
use std::test::Fail;
use wire::RuleKind;

/// As many segments, and so as many rows, as nine rules make at most.
const MOST: usize = 19;

fn gross_as_tried(rt: &impl Abort, book: &Book, gross: u32) {
    assert!(rt; most_entries(book) <= MOST);
    let mut table = [7; ENTRY_WORDS * MOST];
    let mut rows = [7; ROW_WORDS * MOST];
    let row = row_from(book, &mut table, &mut rows, gross);
    assert_eq!(rt; row, reference::row_from(book, gross));
    assert_eq!(rt; safe_from(book, gross), reference::safe_from(book, gross));
}

/// Of rules of all kinds, by which some lose by the next unit, some by one far above, and some not at all, those that lie one behind
/// the other.
#[test]
fn runs_of_rules(rt: HostRuntime) -> Result<(), Fail> {
    let rules = [
        RuleKind::Take.rule([3, 9, 12_500]),
        RuleKind::Give.rule([5, 12, 3_000]),
        RuleKind::TakeSum.rule([7, 14, 2]),
        RuleKind::GiveSum.rule([0, 11, 3]),
        RuleKind::Fade.rule([4, 9_000, 5]),
        RuleKind::Take.rule([6, 20, 9_999]),
        RuleKind::Take.rule([13, 15, 20_000]),
        RuleKind::GiveSum.rule([16, 17, 4]),
        RuleKind::Fade.rule([10, 0, 1]),
    ];
    for from in 0..9 {
        for to in from + 1..=9 {
            let book = book_with(22, &rules[from..to])?;
            for gross in 0..=23 {
                gross_as_tried(&rt, &book, gross);
            }
        }
    }
    Ok(())
}
