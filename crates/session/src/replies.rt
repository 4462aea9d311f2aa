//! The answer to each call, on a book that was read from the words.
#![tactic(auto, unfolding(raise::specs::Calls::turned, raise::specs::Calls::place, raise::specs::Calls::told, raise::specs::Calls::changed))]

ghost use Rattle.std.specs.Prelude.{◌≡◌, ◌≤◌, length, Some, None, nat_le};
ghost use Rattle.raise.specs.Rules.{pick};
ghost use Rattle.raise.specs.Calls.{lays, lifts, left_of, next_row, safe, number, fine};
ghost use Rattle.raise.specs.Told.{gross_told, row_told};
ghost use Rattle.wire.specs.Meaning.{meant, asks, says};
ghost use Rattle.wire.specs.CallBytes.{call_of};
ghost use Rattle.session.specs.Memory.{says_words, next_words};
ghost use Rattle.losses.specs.Words.{row_room};
ghost use Rattle.session.specs.Answered.{Answered, KeptIfRefused, says_or};

use book::{Book, is_fine, read_book, write_book};
use losses::row_from;
use raise::LosingRow;
use safety::safe_from;
use wire::{Answer, Call, Refusal, Rule, read_call};

/// The value, if it is at most so much.
pub(crate) fn at_most(value: u32, most: u32) -> Option<u32>
    ensures { result ≡ pick (nat_le value most) (Some value) None }
{
    (value <= most).then_some(value)
}

/// The rule, if it is in range.
fn admit(rule: Rule) -> Option<Rule>
    ensures { result ≡ pick (fine (meant rule)) (Some rule) None }
{
    is_fine(rule).then_some(rule)
}

fn lay_rule(book: &mut Book, rule: Rule) -> Result<Answer, Refusal>
    ensures { Answered (lays (meant rule)) book.old book.new result }
{
    let Some(rule) = admit(rule) else {
        return Err(Refusal::OutOfRange);
    };
    let Some(number) = book.lay(rule) else {
        return Err(Refusal::BookFull);
    };
    Ok(Answer::Number(number.into()))
}

fn lift_rule(book: &mut Book, i: u32) -> Result<Answer, Refusal>
    ensures { Answered (lifts i) book.old book.new result }
{
    let Some(number) = book.lift(i) else {
        return Err(Refusal::NoSuchRule);
    };
    Ok(Answer::Number(number.into()))
}

/// What comes in and what goes out.
fn tell_left(book: &Book, gross: u32) -> Result<Answer, Refusal>
    ensures { Answered (left_of gross) book.now book.now result }
{
    let Some(gross) = at_most(gross, book.bound()) else {
        return Err(Refusal::OutOfRange);
    };
    let flows = book.flows_of(gross);
    Ok(Answer::Two(flows.inflow, flows.outflow))
}

/// Each gross of a row as one more than it is, or 0, as answers have it. No `From`: an answer and a row are both of other crates.
fn row_answer(row: Option<LosingRow>) -> Answer
    ensures { says result ≡ row_told row }
{
    match row {
        Some(row) => Answer::Two(u64::from(row.first) + 1, u64::from(row.last) + 1),
        None => Answer::Two(0, 0),
    }
}

/// The first row of those who lose, from a gross on. The scratch is written only once the call is accepted.
fn tell_row(book: &Book, scratch: &mut [u64], gross: u32) -> Result<Answer, Refusal>
    requires { row_room book.now.rules ≤ length scratch.old }
    ensures answered { Answered (next_row gross) book.now book.now result }
    ensures kept { KeptIfRefused result scratch.old scratch.new }
{
    let Some(gross) = at_most(gross, book.bound()) else {
        return Err(Refusal::OutOfRange);
    };
    let (table, rows) = scratch.split_at_mut(lowest::words_for(book));
    Ok(row_answer(row_from(book, table, rows, gross)))
}

/// A safe gross as one more than it is, or 0, likewise.
fn safe_answer(gross: Option<u32>) -> Answer
    ensures { says result ≡ number (gross_told gross) }
{
    match gross {
        Some(gross) => Answer::Number(u64::from(gross) + 1),
        None => Answer::Number(0),
    }
}

/// From where on a gross is safe.
fn tell_safe(book: &Book, gross: u32) -> Result<Answer, Refusal>
    ensures { Answered (safe gross) book.now book.now result }
{
    let Some(gross) = at_most(gross, book.bound()) else {
        return Err(Refusal::OutOfRange);
    };
    Ok(safe_answer(safe_from(book, gross)))
}

/// The answer to a call on a book, and the book after it. A call that is turned away leaves the scratch as it was, too.
fn answer_to(book: &mut Book, scratch: &mut [u64], call: Call) -> Result<Answer, Refusal>
    requires { row_room book.old.rules ≤ length scratch.old }
    ensures answered { Answered (asks call) book.old book.new result }
    ensures kept { KeptIfRefused result scratch.old scratch.new }
{
    match call {
        Call::Lay(rule) => lay_rule(book, rule),
        Call::Lift(i) => lift_rule(book, i),
        Call::Left(gross) => tell_left(book, gross),
        Call::Row(gross) => tell_row(book, scratch, gross),
        Call::Safe(gross) => tell_safe(book, gross),
    }
}

/// The answer to the call that the bytes are, if they are one and the words hold a book, which is written back once the call
/// is accepted. Bytes that can't be read are refused before the words are looked at.
pub(crate) fn reply(words: &mut [u64], bytes: &[u8]) -> Result<Answer, Refusal>
    ensures said { says_or result ≡ says_words words.old (call_of bytes.now) }
    ensures words { words.new ≡ next_words words.old (call_of bytes.now) }
{
    let call = read_call(bytes)?;
    let Some(mut book) = read_book(words) else {
        return Err(Refusal::MemoryTooSmall);
    };
    let scratch = &mut words[book.scratch()];
    let answer = answer_to(&mut book, scratch, call)?;
    write_book(words, &book);
    Ok(answer)
}
