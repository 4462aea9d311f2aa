//! What is refused, in which order it is looked at, and that nothing is changed by it.
use crate::asking::*;
use session::{open, serve};
use std::process::Abort;
use std::test::Fail;
use wire::{Answer, Refusal};

/// An opening that is refused leaves every word as it was.
fn not_opened(rt: &impl Abort, words: &mut [u64], rules: u32, bound: u32, refusal: Refusal) {
    assert_eq!(rt; open(words, rules, bound), Err(refusal));
    for word in words {
        assert_eq!(rt; *word, 7);
    }
}

/// Too many rules are noticed first, then a bound that is too high, then too few words.
#[test]
fn openings(rt: HostRuntime) -> Result<(), Fail> {
    not_opened(&rt, &mut [7; 63], 65, MOST + 1, Refusal::TooManyRules);
    not_opened(&rt, &mut [7; 63], 64, MOST + 1, Refusal::BoundTooHigh);
    not_opened(&rt, &mut [7; 63], 64, MOST, Refusal::MemoryTooSmall);
    not_opened(&rt, &mut [7; 63], 0, 0, Refusal::MemoryTooSmall);
    let mut words = [7; 97];
    open(&mut words, 1, MOST).ok().ok_or("not opened")?;
    let mut image = [0; 97];
    image[0] = 0x626f_6f6b;
    image[1] = 1;
    image[2] = 1_000_000_000;
    image[96] = 7;
    assert_eq!(rt; words, image);
    Ok(())
}

/// Calls that are turned away, each by this refusal. They leave every word as it was.
fn refuse(rt: &impl Abort, words: &mut [u64; WORDS], table: &[(&[u8], Refusal)]) {
    let before = *words;
    for (bytes, refusal) in table {
        says(rt, words, bytes, Answer::Refused(*refusal));
        assert_eq!(rt; *words, before);
    }
}

/// A rule out of range is noticed before a book that is full.
#[test]
fn calls(rt: HostRuntime) -> Result<(), Fail> {
    let mut words = opened(1, 300)?;
    all_laid(&rt, &mut words, &[(TAKE, 0, 9, 1)]);
    let table: [(&[u8], Refusal); 8] = [
        (&[], Refusal::Unreadable { place: 0 }),
        (&[0, 5], Refusal::Unreadable { place: 1 }),
        (&lay(TAKE, 9, 9, 1), Refusal::OutOfRange),
        (&lay(TAKE, 0, 9, 1), Refusal::BookFull),
        (&ask(LIFT, 1), Refusal::NoSuchRule),
        (&ask(LEFT, 301), Refusal::OutOfRange),
        (&ask(ROW, 301), Refusal::OutOfRange),
        (&ask(SAFE, 301), Refusal::OutOfRange),
    ];
    refuse(&rt, &mut words, &table);
    Ok(())
}

/// Words that hold no book refuse each call, but bytes that are no call are noticed before.
#[test]
fn no_book(rt: HostRuntime) -> Result<(), Fail> {
    // another tag, fewer rules than there are, a bound that is too high; of the rule its kind, its borders and its rate
    let changed = [
        (0, 0x626f_6f6c),
        (1, 0),
        (2, 1_000_000_001),
        (4, 5),
        (6, 5),
        (7, 20_001),
    ];
    for (place, word) in changed {
        let mut words = opened(1, 300)?;
        all_laid(&rt, &mut words, &[(TAKE, 5, 9, 1)]);
        assert!(rt; place < WORDS);
        words[place] = word;
        let table: [(&[u8], Refusal); 2] = [
            (&ask(LEFT, 0), Refusal::MemoryTooSmall),
            (&[2], Refusal::Unreadable { place: 1 }),
        ];
        refuse(&rt, &mut words, &table);
    }
    Ok(())
}

fn cut_to(rt: &impl Abort, size: usize) -> Result<(), Fail> {
    let mut words = opened(1, 300)?;
    assert!(rt; size <= 96);
    let refused = Answer::Refused(Refusal::MemoryTooSmall);
    says(rt, &mut words[0..size], &ask(LEFT, 0), refused);
    Ok(())
}

/// No word, and one less than the book asks for.
#[test]
fn too_few_words(rt: HostRuntime) -> Result<(), Fail> {
    cut_to(&rt, 0)?;
    cut_to(&rt, 95)
}

/// Where the answer has no room, nothing is written and nothing is changed.
#[test]
fn no_room(rt: HostRuntime) -> Result<(), Fail> {
    let mut words = opened(1, 300)?;
    let mut short = [9; 23];
    assert_eq!(rt; serve(&mut words, &lay(TAKE, 0, 9, 1), &mut short), 0);
    assert_eq!(rt; short, [9; 23]);
    assert_eq!(rt; words, opened(1, 300)?);
    let mut out = [9; 25];
    assert_eq!(rt; serve(&mut words, &lay(TAKE, 0, 9, 1), &mut out), 24);
    let rule_0 = [
        1, 0, 0, 0, 0, 0, 0, 0, 0, 0, 0, 0, 0, 0, 0, 0, 0, 0, 0, 0, 0, 0, 0, 0, 9,
    ];
    assert_eq!(rt; out, rule_0);
    assert_eq!(rt; words[3], 1);
    Ok(())
}

/// 64 rules, of which each takes most, up to the greatest bound. No contract says that this takes no time that grows with the bound.
#[test]
fn most_rules(rt: HostRuntime) -> Result<(), Fail> {
    let mut words = [7u64; 2112];
    open(&mut words, 64, MOST).ok().ok_or("not opened")?;
    all_laid(&rt, &mut words, &[(TAKE, 0, MOST, 20_000); 64]);
    let full = Answer::Refused(Refusal::BookFull);
    says(&rt, &mut words, &lay(TAKE, 0, MOST, 20_000), full);
    let (in_all, by_64, by_63) = (
        10_000_000_000_000,
        1_280_000_000_000_000,
        1_260_000_000_000_000,
    );
    let table = [
        (LEFT, MOST, Answer::Two(in_all, by_64)),
        (ROW, 500_000_000, Answer::Two(500_000_001, 1_000_000_000)),
        (SAFE, 0, Answer::Number(0)),
        (LIFT, 63, Answer::Number(63)),
        (LEFT, MOST, Answer::Two(in_all, by_63)),
    ];
    all_say(&rt, &mut words, &table);
    Ok(())
}
