//! Which rules are in range, and rules of every kind in the words of a book.
use crate::books::*;
use book::{Flows, is_fine, lay, lift, open_empty, read_book, words_asked, write_book};
use std::process::Abort;
use std::test::Fail;
use wire::RuleKind;

fn ranges(rt: &impl Abort, kinds: &[RuleKind], table: &[(u32, u32, u32, bool)]) {
    for kind in kinds {
        for (from, second, last, fine) in table {
            assert_eq!(rt; is_fine(kind.rule([*from, *second, *last])), *fine);
        }
    }
}

/// Each limit at its edge: borders in order and up to a billion, a rate of up to two for each unit, a sum of up to a hundred million.
#[test]
fn in_range(rt: HostRuntime) {
    let rates = [
        (0, 1, 0, true),
        (MOST - 1, MOST, 20_000, true),
        (0, MOST, 20_001, false),
        (0, MOST + 1, 20_000, false),
        (5, 5, 1, false),
    ];
    ranges(&rt, &[RuleKind::Take, RuleKind::Give], &rates);
    let sums = [
        (0, 1, 0, true),
        (MOST - 1, MOST, 100_000_000, true),
        (0, MOST, 100_000_001, false),
        (0, MOST + 1, 1, false),
        (5, 5, 1, false),
    ];
    ranges(&rt, &[RuleKind::TakeSum, RuleKind::GiveSum], &sums);
    let fades = [
        (0, 0, 0, true),
        (MOST, 20_000, 100_000_000, true),
        (MOST + 1, 1, 1, false),
        (1, 20_001, 1, false),
        (1, 1, 100_000_001, false),
    ];
    ranges(&rt, &[RuleKind::Fade], &fades);
}

/// A rule of each kind in its slot, zeros behind them, and other words behind those.
#[test]
fn in_words(rt: HostRuntime) -> Result<(), Fail> {
    let rules = [
        RuleKind::Take.rule([10, 20, 30]),
        RuleKind::Give.rule([10, 20, 30]),
        RuleKind::TakeSum.rule([10, 20, 30]),
        RuleKind::GiveSum.rule([10, 20, 30]),
        RuleKind::Fade.rule([10, 20, 30]),
    ];
    let book = book_with(300, &rules)?;
    let mut words = [9; 2113];
    assert!(rt; words_asked(book.limit()) <= 2113);
    write_book(&mut words, &book);
    assert_eq!(rt; &words[..4], [0x626f_6f6b, 64, 300, 5].as_slice());
    let slots = [
        0, 10, 20, 30, 1, 10, 20, 30, 2, 10, 20, 30, 3, 10, 20, 30, 4, 10, 20, 30, 0,
    ];
    assert_eq!(rt; &words[4..25], slots.as_slice());
    assert_eq!(rt; [words[2111], words[2112]], [0, 9]);
    let book = read_book(&words).ok_or("no book")?;
    assert_eq!(rt; book.scratch(), 260..2112);
    assert_eq!(rt; book.rules(), rules.as_slice());
    Ok(())
}

/// The lunch is lifted, and the fade is then the third rule.
#[test]
fn lifted(rt: HostRuntime) -> Result<(), Fail> {
    let mut book = family()?;
    let flows = Flows {
        inflow: 16_993_000,
        outflow: 998_000,
    };
    assert_eq!(rt; book.flows_of(1_499), flows);
    assert_eq!(rt; book.lift(2), Some(2));
    assert_eq!(rt; book.net_of(1_499), 13_995_000);
    assert_eq!(rt; book.rule(2), Some(RuleKind::Fade.rule([500, 3_000, 300])));
    assert_eq!(rt; book.rule(3), None);
    Ok(())
}

/// A rule is laid where the words are, a second has no room, and the first is lifted.
#[test]
fn in_place(rt: HostRuntime) -> Result<(), Fail> {
    let rule = RuleKind::Take.rule([10, 20, 30]);
    assert!(rt; is_fine(rule));
    let mut words = [9; 97];
    open_empty(&mut words, 1, 50);
    let book = read_book(&words).ok_or("no book")?;
    assert_eq!(rt; lay(&mut words, book, rule), Some(0));
    let laid = [0x626f_6f6b, 1, 50, 1, 0, 10, 20, 30, 0];
    assert_eq!(rt; &words[..9], laid.as_slice());
    let book = read_book(&words).ok_or("no book")?;
    assert_eq!(rt; lay(&mut words, book, rule), None);
    assert_eq!(rt; &words[..9], laid.as_slice());
    assert_eq!(rt; lift(&mut words, book, 0), Some(0));
    let lifted = [0x626f_6f6b, 1, 50, 0, 0, 0, 0, 0, 0];
    assert_eq!(rt; &words[..9], lifted.as_slice());
    assert_eq!(rt; [words[95], words[96]], [0, 9]);
    Ok(())
}

/// What is lifted from a copy stays in the book that was copied.
#[test]
fn copied(rt: HostRuntime) -> Result<(), Fail> {
    let book = family()?;
    let mut copy = book;
    assert_eq!(rt; copy.lift(2), Some(2));
    assert_eq!(rt; book.rule(2), Some(RuleKind::GiveSum.rule([0, 1_500, 200])));
    assert_eq!(rt; book.rule(3), copy.rule(2));
    Ok(())
}
