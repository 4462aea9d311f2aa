//! A book of rules. This crate owns the book as a value within limits, whose rules are laid and lifted; its layout in lent words,
//! which are read whole into a value and written whole from one, and which no other crate knows; which rules are in range; and what
//! rules let in and out of a gross.
#![tactic(auto)]

mod flows;
mod layout;
mod rules;
mod slots;
mod value;

pub use layout::{lay, lift, open_empty, read_book, words_asked, write_book, write_image};
pub use rules::{Flows, is_fine};
pub use value::Book;
