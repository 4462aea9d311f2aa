//! Books of rules, and the rules of a family.
use book::{Book, is_fine};
use std::test::Fail;
use wire::{Rule, RuleKind};

/// The greatest bound that a book may have.
pub(crate) const MOST: u32 = 1_000_000_000;

/// The book with these rules and a limit of 64.
pub(crate) fn book_with(bound: u32, rules: &[Rule]) -> Result<Book, Fail> {
    if bound > MOST {
        return Err(Fail::new("a bound that is too high"));
    }
    let mut book = Book::new(64, bound);
    for rule in rules {
        if !is_fine(*rule) {
            return Err(Fail::new("a rule that is out of range"));
        }
        book.lay(*rule).ok_or("a rule too many")?;
    }
    Ok(book)
}

/// 20 % of what is above 1,000 is taken, 40 % above 3,000; 200 are given below 1,500, and 300 that fade by 30 % above 500.
pub(crate) fn family() -> Result<Book, Fail> {
    let rules = [
        RuleKind::Take.rule([1_000, 3_000, 2_000]),
        RuleKind::Take.rule([3_000, 100_000, 4_000]),
        RuleKind::GiveSum.rule([0, 1_500, 200]),
        RuleKind::Fade.rule([500, 3_000, 300]),
    ];
    book_with(5_000, &rules)
}
