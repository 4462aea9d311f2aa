//! What `cliffs` prints: the rows of a file of rules, and what more would do at the earnings that are named; or which line, or which
//! earning, doesn't fit. This crate owns how such a file is read into a book, by the session's own calls, and the whole text.
#![tactic(auto)]

mod prospects;
mod reading;
mod refusals;
mod rows;

ghost use Rattle.std.specs.Prelude.{◌≡◌, ◌≤◌, map, length, string_bytes, IfOk};
ghost use Rattle.losses.specs.Words.{row_room};
ghost use Rattle.report.specs.Report.{report as report_of, told_by};
ghost use Rattle.report.specs.Reading.{BooksReadBack};
ghost use Rattle.report.specs.Drafts.{printed};

use book::{Book, words_asked};
use prospects::{no_earning, write_prospects};
use reading::{RULES, read_file};
use refusals::{earning_refused, line_refused};
use rows::write_row_lines;
use std::alloc::{AllocError, Global};

/// What is printed: the text, or why there is none.
#[derive(Drop)]
pub enum Outcome {
    /// the rows, and a line for each earning, for standard output
    Told(String),
    /// the message on the first line, or else earning, that doesn't fit, for standard error
    Refused(String),
}

/// Rows, and then a line for each earning that was named, if every one is an earning up to the bound.
fn tell(
    heap: Global,
    book: &Book,
    scratch: &mut [u64],
    earnings: &[String],
) -> Result<Outcome, AllocError>
    requires { row_room book.now.rules ≤ length scratch.old }
    ensures { IfOk result (λ outcome. printed outcome ≡ told_by book.now.rules book.now.bound (map string_bytes earnings.now)) }
{
    if let Some(word) = no_earning(book, earnings) {
        let message = earning_refused(heap, word, book.bound())?;
        return Ok(Outcome::Refused(message));
    }
    let mut out = String::new(heap);
    write_row_lines(book, scratch, &mut out)?;
    write_prospects(book, scratch, earnings, &mut out)?;
    Ok(Outcome::Told(out))
}

/// What is told of a file of rules and of earnings. A book that was written as its lines, whole, is read as that book.
#[tactic(auto, using(crate::proofs::Whole::books_read_back))]
pub fn report(heap: Global, file: &str, earnings: &[String]) -> Result<Outcome, AllocError>
    ensures told { IfOk result (λ outcome. printed outcome ≡ report_of file.now (map string_bytes earnings.now)) }
    ensures back { BooksReadBack }
{
    let mut words = vec![in heap; 0u64; words_asked(RULES)]?;
    match read_file(&mut words, file) {
        Ok(book) => tell(heap, &book, &mut words[book.scratch()], earnings),
        Err(misfit) => Ok(Outcome::Refused(line_refused(heap, misfit)?)),
    }
}
