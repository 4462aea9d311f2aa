//! Those who lose by earning more: the rows of a book, from the first to the last, none left out. This crate owns the losing
//! part of a segment, how neighbours join, rows as words, the row from an earning on, and the most that is lost in a row.
#![tactic(auto)]

mod all_rows;
mod most;
mod one_row;
mod parts;
mod words;

pub use all_rows::write_rows;
pub use most::most_lost;
pub use one_row::row_from;
pub use words::{ROW_WORDS, read_row};
