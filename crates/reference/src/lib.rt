//! Row and safe, slowly: searches that try every earning, by the definition itself. This crate owns the slow answers, which are
//! short enough to be checked by eye; tests compare the fast ones with them.
#![tactic(auto)]

ghost use Rattle.std.specs.Prelude.{◌≡◌, suc, ◌-◌, ◌&&◌, nat_lt};
ghost use Rattle.raise.specs.Rules.{some_less, loses, first_losing, first_not, all_as_much, safe_from};
ghost use Rattle.raise.specs.Calls.{Limits, row_from};
ghost use Rattle.raise.specs.Told.{gross_told, row_told};

use book::Book;
use raise::LosingRow;

/// Is less left than of the gross of one of the earnings from `from` on?
fn less_from(book: &Book, gross: u32, from: u32) -> bool
    ensures { result ≡ some_less book.now.rules gross (suc book.now.bound - from) from }
{
    let net = book.net_of(gross);
    (from..=book.bound()).any(|other| book.net_of(other) < net)
}

/// Is less left of a larger earning, up to the bound?
#[tactic(auto, unfolding(raise::specs::Rules::some_less))]
fn loses(book: &Book, gross: u32) -> bool
    ensures { result ≡ loses book.now.rules book.now.bound gross }
{
    gross < book.bound() && less_from(book, gross, gross + 1)
}

/// The first that loses, and the first that does not: they differ in a `!`, and each owes a definition of its own.
fn first_losing(book: &Book, gross: u32) -> Option<u32>
    ensures { gross_told result ≡ first_losing book.now.rules book.now.bound gross }
{
    (gross..=book.bound()).find(|earned| loses(book, *earned))
}

fn first_not(book: &Book, gross: u32) -> Option<u32>
    ensures { gross_told result ≡ first_not book.now.rules book.now.bound gross }
{
    (gross..=book.bound()).find(|earned| !loses(book, *earned))
}

/// The first row of those who lose, from a gross on, if there is one.
#[tactic(auto, unfolding(raise::specs::Calls::row_from))]
pub fn row_from(book: &Book, gross: u32) -> Option<LosingRow>
    ensures { (l : Limits) → l.bound ≡ book.now.bound → row_told result ≡ row_from l book.now.rules (first_losing book.now.rules book.now.bound gross) }
{
    let first = first_losing(book, gross)?;
    // The next earning that doesn't lose is above `first`, which does, so that there is one before it.
    let last = first_not(book, first).map_or(book.bound(), |next| next - 1);
    Some(LosingRow { first, last })
}

/// Is the earning `from` above the gross, and is at least as much left of each from it on?
#[tactic(auto, using(raise::proofs::Search::not_less))]
fn is_safe(book: &Book, gross: u32, from: u32) -> bool
    ensures { result ≡ (nat_lt gross from && all_as_much book.now.rules gross (suc book.now.bound - from) from) }
{
    gross < from && !less_from(book, gross, from)
}

/// The smallest gross above, from which on at least as much is left, if there is one.
pub fn safe_from(book: &Book, gross: u32) -> Option<u32>
    ensures { gross_told result ≡ safe_from book.now.rules book.now.bound gross }
{
    (gross..=book.bound()).find(|earned| is_safe(book, gross, *earned))
}
