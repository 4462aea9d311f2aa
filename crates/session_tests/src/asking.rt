//! Calls as bytes, and tables of what they must answer.
use session::{call, open};
use std::process::Abort;
use std::test::Fail;
use wire::{Answer, lay_bytes, rule_of_kind};

/// The greatest bound that a book may have.
pub(crate) const MOST: u32 = 1_000_000_000;

/// Words for four rules, and four more.
pub(crate) const WORDS: usize = 196;

/// Kinds of rules and of calls, as their bytes have them.
pub(crate) const TAKE: u8 = 0;

pub(crate) const GIVE: u8 = 1;

pub(crate) const TAKE_SUM: u8 = 2;

pub(crate) const GIVE_SUM: u8 = 3;

pub(crate) const FADE: u8 = 4;

pub(crate) const LIFT: u8 = 1;

pub(crate) const LEFT: u8 = 2;

pub(crate) const ROW: u8 = 3;

pub(crate) const SAFE: u8 = 4;

pub(crate) fn opened(rules: u32, bound: u32) -> Result<[u64; WORDS], Fail> {
    let mut words = [7u64; WORDS];
    open(&mut words, rules, bound).ok().ok_or("not opened")?;
    Ok(words)
}

pub(crate) fn lay(kind: u8, from: u32, second: u32, last: u32) -> [u8; 14] {
    lay_bytes(rule_of_kind(kind, from, second, last))
}

pub(crate) fn ask(kind: u8, value: u32) -> [u8; 5] {
    let mut bytes = [kind; 5];
    bytes[1..].copy_from_slice(&value.to_le_bytes());
    bytes
}

pub(crate) fn says(rt: &impl Abort, words: &mut [u64], bytes: &[u8], answer: Answer) {
    assert_eq!(rt; call(words, bytes), answer);
}

/// Each call of one field, and its answer.
pub(crate) fn all_say(rt: &impl Abort, words: &mut [u64], table: &[(u8, u32, Answer)]) {
    for (kind, value, answer) in table {
        says(rt, words, &ask(*kind, *value), *answer);
    }
}

/// Rules that are laid one behind the other, the first as 0.
pub(crate) fn all_laid(rt: &impl Abort, words: &mut [u64], rules: &[(u8, u32, u32, u32)]) {
    for (i, (kind, from, second, last)) in rules.iter().enumerate() {
        let bytes = lay(*kind, *from, *second, *last);
        says(rt, words, &bytes, Answer::Number(i as u64));
    }
}

/// A book of these rules answers so, and no question changes a word of it.
pub(crate) fn answers(
    rt: &impl Abort,
    rules: &[(u8, u32, u32, u32)],
    bound: u32,
    table: &[(u8, u32, Answer)],
) -> Result<(), Fail> {
    let mut words = opened(4, bound)?;
    all_laid(rt, &mut words, rules);
    let book = words;
    all_say(rt, &mut words, table);
    assert_eq!(rt; words, book);
    Ok(())
}
