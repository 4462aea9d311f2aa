//! Hinges: net as a sum. From each hinge on net is higher by a jump, and by a pace for each unit beyond, so that all rules together
//! are one list of numbers of one kind. This crate owns the hinges of a book, in the order of where they are, and the way down along
//! them: on it a segment is told by what the hinges up to its end come to, and undoing those at its beginning leads to the next one.
//! Rows and safe grosses, which ask for all segments of a book, go by them.
#![tactic(auto)]

mod hinge;
mod of_book;
mod sweep;

pub use hinge::Hinge;
pub use of_book::{Hinges, MOST_HINGES, hinges_of};
pub use sweep::Sweep;
