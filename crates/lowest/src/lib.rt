//! From the bound down: each segment with the lowest net of all grosses beyond it, up to the bound. This crate owns the table
//! of those segments, its entries as words, and the walk that writes it into a part of the lent memory.
#![tactic(auto)]

mod entries;
mod table;

pub use entries::{ENTRY_WORDS, Entry, read_entry};
pub use table::{most_entries, words_for, write_table};
