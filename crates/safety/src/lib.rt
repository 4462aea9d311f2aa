//! From where on a gross is safe: from one past the last gross above it of which less is left. This crate owns that last gross,
//! which is found segment by segment from the bound down, and the safe gross.
#![tactic(auto)]

mod below;
mod less;

ghost use Rattle.std.specs.Prelude.{◌≡◌};
ghost use Rattle.raise.specs.Rules.{safe_from};
ghost use Rattle.raise.specs.Laws.{SafeTold};
ghost use Rattle.raise.specs.Told.{gross_told};

use book::Book;
use less::last_less;

/// The smallest gross above this one from which on, up to the bound, at least as much is left, if there is one.
#[tactic(auto, using(crate::proofs::Safe::past, crate::proofs::Safe::none_safe))]
pub fn safe_from(book: &Book, gross: u32) -> Option<u32>
    ensures safe { gross_told result ≡ safe_from book.now.rules book.now.bound gross }
    ensures told { SafeTold book.now.rules book.now.bound gross (gross_told result) }
{
    let last = last_less(book, gross).unwrap_or(gross);
    if last < book.bound() {
        Some(last + 1)
    } else {
        None
    }
}
