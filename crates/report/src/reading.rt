//! A file of rules as text, read into a book.
ghost use Rattle.std.specs.Prelude.{◌≡◌, ◌≤◌, length, IfOk};
ghost use Rattle.std.specs.Str.Iter.{lines_rest};
ghost use Rattle.book.specs.Held.{asked};
ghost use Rattle.text.specs.RuleLines.{said};
ghost use Rattle.report.specs.Reading.{blank, draft, has_return, says_of, without_mark};
ghost use Rattle.report.specs.Drafts.{Holds, Laid, Bounded, Added, Drafted, Filed};

use book::{Book, read_book};
use session::{call, open};
use std::str::Lines;
use text::{RuleLine, read_line};
use wire::{Answer, Refusal, Rule, lay_bytes};

/// The memory that is lent is for so many rules.
pub(crate) const RULES: u32 = 16;

/// The bound of a file that names none.
const BOUND: u32 = 999_999_999;

/// A line that was refused: which it is, from 1 on, what it is, and why.
#[derive(Clone, Copy)]
pub(crate) struct Misfit<'a> {
    pub(crate) line: usize,
    pub(crate) text: &'a str,
    pub(crate) refusal: Refusal,
}

/// A book without rules, with the bound of a file that names none.
#[tactic(auto, using(crate::proofs::Lays::begun))]
fn open_blank(words: &mut [u64])
    requires { asked 16 ≤ length words.old }
    ensures { Holds words.new blank }
{
    let Ok(()) = open(words, RULES, BOUND) else {
        // Within limits, and in as many words as are asked for, no opening is refused.
        unreachable!();
    };
}

/// The book opened anew, with a bound of its own: no other may come after it.
fn bound_at(words: &mut [u64], bound: u32) -> Result<bool, Refusal>
    ensures { Bounded words.old words.new bound result }
{
    match open(words, RULES, bound) {
        Ok(()) => Ok(false),
        Err(refusal) => Err(refusal),
    }
}

/// A rule more: no bound may come after it.
fn lay(words: &mut [u64], rule: Rule) -> Result<bool, Refusal>
    ensures { Laid words.old words.new rule result }
{
    match call(words, &lay_bytes(rule)) {
        Answer::Refused(refusal) => Err(refusal),
        Answer::Number(_) | Answer::Two(..) => Ok(false),
    }
}

/// Is there a carriage return in the line? Before its newline there may be one, which is no part of it.
pub(crate) fn has_return(line: &str) -> bool
    ensures { result ≡ has_return line.now }
{
    for byte in line.as_bytes() {
        if *byte == b'\r' {
            return true;
        }
    }
    false
}

/// What a line says.
fn read_said(line: &str) -> Option<RuleLine>
    ensures { said result ≡ says_of line.now }
{
    if has_return(line) {
        return None;
    }
    read_line(line.as_bytes())
}

/// One line more in the book that the words hold: is it still before the bound and the first rule?
fn add_line(words: &mut [u64], fresh: bool, line: &str) -> Result<bool, Refusal>
    ensures { Added words.old words.new fresh (says_of line.now) result }
{
    let Some(said) = read_said(line) else {
        return Err(Refusal::Unreadable { place: 0 });
    };
    match said {
        RuleLine::Empty => Ok(fresh),
        RuleLine::Bound(_) if !fresh => Err(Refusal::Unreadable { place: 0 }),
        RuleLine::Bound(bound) => bound_at(words, bound),
        RuleLine::Rule(rule) => lay(words, rule),
    }
}

/// Some editors put a mark before a text; it says nothing.
fn without_mark(text: &str) -> &str
    ensures { result.now ≡ without_mark text.now }
{
    match text.strip_prefix("\u{feff}") {
        Some(rest) => rest,
        None => text,
    }
}

/// All lines of a file, the last too where no newline ends it.
fn lines_of(text: &str) -> Lines<'_>
    ensures { lines_rest result ≡ without_mark text.now }
{
    without_mark(text).lines()
}

/// The lines of a file, one by one; or the first that doesn't fit.
fn read_lines<'a>(words: &mut [u64], text: &'a str) -> Result<(), Misfit<'a>>
    requires { asked 16 ≤ length words.old }
    ensures { Drafted (draft text.now) words.new result }
{
    open_blank(words);
    let mut fresh = true;
    let mut number = 0;
    for line in lines_of(text) {
        number += 1;
        match add_line(words, fresh, line) {
            Ok(still) => fresh = still,
            Err(refusal) => {
                return Err(Misfit {
                    line: number,
                    text: line,
                    refusal,
                });
            }
        }
    }
    Ok(())
}

/// The book that a file makes, held by the words from then on; or the first line that doesn't fit.
pub(crate) fn read_file<'a>(words: &mut [u64], text: &'a str) -> Result<Book, Misfit<'a>>
    requires { asked 16 ≤ length words.old }
    ensures file { Filed (draft text.now) result }
    ensures limit { IfOk result (λ book. book.limit ≡ 16) }
{
    match read_lines(words, text) {
        Err(misfit) => Err(misfit),
        Ok(()) => match read_book(words) {
            Some(book) => Ok(book),
            // Whatever the lines were, the words hold a book.
            None => unreachable!(),
        },
    }
}
