//! The session: a book is opened in lent words, and from then on each call, as bytes, gets its answer. This crate owns open, call
//! and serve, in which order refusals come, and what is promised of whole lists of calls. The words are all the state, nothing is
//! allocated, and any words and any bytes may be handed in: what cannot serve is refused.
#![tactic(auto)]

mod replies;

ghost use Rattle.std.specs.Prelude.{◌≡◌, ◌++◌, ℕ, Bool, length, drop, Some, None, nat_le};
ghost use Rattle.raise.specs.Rules.{pick};
ghost use Rattle.raise.specs.Promise.{thin, whole, Right, RefusalKeeps, EnoughMemory};
ghost use Rattle.wire.specs.Meaning.{says};
ghost use Rattle.wire.specs.CallBytes.{call_of};
ghost use Rattle.book.specs.Held.{asked};
ghost use Rattle.session.specs.Memory.{limited, said_open, opening, open_words, Opened, Suffices, says_words, next_words, desk};
ghost use Rattle.session.specs.Nothing.{Plain};
ghost use Rattle.session.specs.Kinds.{KeepsAnswers};
ghost use Rattle.session.specs.Rows.{AllRows};
ghost use Rattle.session.specs.Safe.{AllSafe};
ghost use Rattle.session.specs.Bytes.{says_bytes, next_bytes, if_room, RightBytes, ReadBackBytes, RefusalKeepsBytes, EnoughMemoryBytes};

use book::{open_empty, words_asked};
use replies::{at_most, reply};
use wire::{Answer, Refusal};

/// How many words a limit of so many rules asks for, if there are so many.
fn room_for(words: &[u64], rules: u32) -> Option<usize>
    ensures { result ≡ pick (nat_le (asked rules) (length words.now)) (Some (asked rules)) None }
{
    let count = words_asked(rules);
    (words.len() >= count).then_some(count)
}

/// Opens a book in the lent words, for so many rules and earnings up to so much: two numbers, each with a refusal of its own. The
/// limits and the room are checked in this order. An accepted opening serves for good.
#[tactic(auto, using(crate::proofs::Runs::suffices))]
pub fn open(words: &mut [u64], rules: u32, bound: u32) -> Result<(), Refusal>
    ensures said { said_open result ≡ opening words.old (limited rules bound) }
    ensures words { words.new ≡ open_words words.old (limited rules bound) }
    ensures opened { Opened (limited rules bound) (said_open result) words.old words.new }
    ensures suffices { Suffices (limited rules bound) words.old (said_open result) }
{
    let Some(limit) = at_most(rules, 64) else {
        return Err(Refusal::TooManyRules);
    };
    let Some(bound) = at_most(bound, 1_000_000_000) else {
        return Err(Refusal::BoundTooHigh);
    };
    let Some(_) = room_for(words, limit) else {
        return Err(Refusal::MemoryTooSmall);
    };
    open_empty(words, limit, bound);
    Ok(())
}

/// Answers the call that the bytes are. For every list of calls the answers are those of the written book, a call that
/// is turned away changes nothing, and memory stays within what is asked for. Asked for one after the other, the rows that are told
/// are those of all earnings up to the bound at which somebody loses by earning more, from the first to the last, none left out. For
/// each earning up to the bound the smallest larger one is told from which on at least as much is left, or that there is none. Calls
/// that lay only some kinds of rules, such as rates, get the answers of a book that can do no others.
#[tactic(auto, using(crate::proofs::Runs::right, crate::proofs::Runs::refusal_keeps, crate::proofs::Runs::all_rows, crate::proofs::Runs::all_safe, crate::proofs::Nothing::all_plain, crate::proofs::OtherKinds::keeps_answers))]
pub fn call(words: &mut [u64], bytes: &[u8]) -> Answer
    ensures said { says result ≡ says_words words.old (call_of bytes.now) }
    ensures words { words.new ≡ next_words words.old (call_of bytes.now) }
    ensures right { Right whole desk }
    ensures keeps { RefusalKeeps whole desk }
    ensures enough { EnoughMemory desk }
    ensures rows { AllRows whole desk }
    ensures safe { AllSafe whole desk }
    ensures plain { Plain }
    ensures kinds { (can : ℕ → Bool) → KeepsAnswers can }
    ensures rates { KeepsAnswers thin }
{
    reply(words, bytes).unwrap_or_else(Answer::Refused)
}

/// The same with the answer's 24 bytes in `out`, and how many were written. Where `out` is too short none are, and nothing is asked
/// of the book or changed. A count and no `Option`: its clauses give callers just that.
#[tactic(auto, using(crate::proofs::OnBytes::right_bytes, crate::proofs::OnBytes::read_back_bytes, crate::proofs::OnBytes::refusal_keeps_bytes))]
pub fn serve(words: &mut [u64], bytes: &[u8], out: &mut [u8]) -> usize
    ensures count { result ≡ if_room out.old 24 0 }
    ensures out { out.new ≡ if_room out.old (says_bytes words.old bytes.now ++ drop 24 out.old) out.old }
    ensures words { words.new ≡ if_room out.old (next_bytes words.old bytes.now) words.old }
    ensures right { RightBytes }
    ensures back { ReadBackBytes }
    ensures keeps { RefusalKeepsBytes }
    ensures enough { EnoughMemoryBytes }
{
    if out.len() < 24 {
        return 0;
    }
    let answer = call(words, bytes);
    out[..24].copy_from_slice(&answer.to_bytes());
    24
}
