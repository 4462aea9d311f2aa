//! Answers, amounts, rows, earnings and rules as text. This crate owns how answers are written, and what is told of a row and of an
//! earning; and rules as lines, both ways. specs/ says for every call and answer which line tells it, and for every line what it
//! says.
#![tactic(auto)]

mod answers;
mod cuts;
mod numbers;
mod prospects;
mod rule_lines;
mod words;

pub use answers::{Amount, Line, write_line};
pub use numbers::read_number;
pub use prospects::{Outlook, Prospect, RowLine};
pub use rule_lines::{RuleLine, read_line};
