//! The layout of a book in lent words: a front of four words, a slot for each rule up to the limit, and scratch.
ghost use Rattle.std.specs.Prelude.{◌≡◌, ◌+◌, ◌*◌, ◌≤◌, ◌<◌, true, [], ◌++◌, length, drop, IfSome, Some, None, slice_index};
ghost use Rattle.raise.specs.Rules.{pick};
ghost use Rattle.raise.specs.Calls.{lays, lifts, changed, fine};
ghost use Rattle.wire.specs.Meaning.{meant};
ghost use Rattle.book.specs.Held.{asked, width, scratch_from, image, rules_of, book_of, head_fine, rewritten, has_room, has_rule, ReadsBack, HoldsGood, ImagesDiffer};
ghost use Rattle.book.specs.Meant.{all_meant, first_meant};
ghost use Rattle.book.specs.Value.{ReadFrom, ReadIf};
ghost use Rattle.book.specs.Fields.{AreFirst};

use crate::slots::{SLOT, read_slot, slot_of};
use crate::value::{BLANK, Book, MOST_RULES};
use std::ops::Range;
use wire::Rule;

/// Says that an opened book of this format is here: "book" in ASCII.
const TAG: u64 = 0x626f_6f6b;

/// How many words the front has.
const FRONT: usize = 4;

/// The front of the words.
#[derive(Clone, Copy)]
struct Front {
    limit: u32,
    bound: u32,
    count: usize,
}

/// How many words a book with a limit of so many rules asks for: at most 64 a rule and 256 more.
pub fn words_asked(rules: u32) -> usize
    ensures value { result ≡ asked rules }
    ensures bound { result ≤ 64 * rules + 256 }
{
    // `usize` has no `From` of another width, here and below.
    32 * rules as usize + 64
}

/// The front of the words, if it is in range and they are as many as it asks for.
fn read_front(words: &[u64]) -> Option<Front>
    ensures { result ≡ pick (head_fine words.now) (Some (record { limit = slice_index words.now 1; bound = slice_index words.now 2; count = slice_index words.now 3 })) None }
{
    let [TAG, limit @ 0..=64, bound @ 0..=1_000_000_000, count, ..] = words else {
        return None;
    };
    if *count > *limit || words.len() < words_asked(*limit as u32) {
        return None;
    }
    // No `From` narrows; by the pattern nothing is lost.
    Some(Front {
        limit: *limit as u32,
        bound: *bound as u32,
        count: *count as usize,
    })
}

/// The rules of the first slots, if each holds one, and blanks behind them.
fn read_rules(words: &[u64], count: usize) -> Option<[Rule; MOST_RULES]>
    requires few { count ≤ 64 }
    requires long { 4 + width * count ≤ length words.now }
    ensures rules { first_meant count result ≡ rules_of width (drop 4 words.now) count }
    ensures rest { IfSome result (AreFirst count) }
{
    let (slots, _) = words[FRONT..].as_chunks::<SLOT>();
    let mut rules = [BLANK; MOST_RULES];
    for (i, slot) in slots[..count].iter().enumerate() {
        rules[i] = read_slot(slot)?;
    }
    Some(rules)
}

/// The book that the words hold, apart from `read_book`, which would owe its theorems anew at each of these three returns.
fn read_whole(words: &[u64]) -> Option<Book>
    ensures { ReadIf words.now result }
{
    let front = read_front(words)?;
    let rules = read_rules(words, front.count)?;
    Some(Book {
        limit: front.limit,
        bound: front.bound,
        count: front.count,
        rules,
    })
}

/// The book that the words hold, if they hold one.
/// What was written is read back, what is read is within limits, and different books are different words.
pub fn read_book(words: &[u64]) -> Option<Book>
    ensures book { result ≡ book_of words.now }
    ensures opened { ReadIf words.now result }
    ensures back { ReadsBack }
    ensures good { HoldsGood }
    ensures differ { ImagesDiffer }
{
    read_whole(words)
}

/// The image of a book with these limits and rules, in the first words, whether or not such words hold a book; the words beyond stay.
/// Only here is an image written.
pub fn write_image(words: &mut [u64], limit: u32, bound: u32, rules: &[Rule])
    requires few { limit ≤ 64 }
    requires room { length rules.now ≤ limit }
    requires long { asked limit ≤ length words.old }
    ensures { words.new ≡ image (record { limit = limit; bound = bound; rules = all_meant rules.now }) ++ drop (asked limit) words.old }
{
    words[..FRONT].copy_from_slice(&[TAG, limit.into(), bound.into(), rules.len() as u64]);
    // By places, since the library says nothing of what a slice ends as whose chunks are written.
    for (i, rule) in rules.iter().enumerate() {
        let at = FRONT + SLOT * i;
        words[at..at + SLOT].copy_from_slice(&slot_of(*rule));
    }
    words[FRONT + SLOT * rules.len()..words_asked(limit)].fill(0);
}

/// The book's image, in the first words; the words beyond stay.
pub fn write_book(words: &mut [u64], book: &Book)
    requires { asked book.now.limit ≤ length words.old }
    ensures { words.new ≡ image book.now ++ drop (asked book.now.limit) words.old }
{
    write_image(words, book.limit, book.bound, book.rules());
}

/// A book without rules, in the first words; the words beyond stay. Its limits come as the two numbers of an opening, for which
/// a struct of limits would ask more.
pub fn open_empty(words: &mut [u64], limit: u32, bound: u32)
    requires few { limit ≤ 64 }
    requires low { bound ≤ 1000000000 }
    requires long { asked limit ≤ length words.old }
    ensures { words.new ≡ image (record { limit = limit; bound = bound; rules = [] }) ++ drop (asked limit) words.old }
{
    write_book(words, &Book::new(limit, bound));
}

/// One rule more, as the last, in the words that the book was read from: its number, if there is room for it. Where there is none,
/// nothing is written.
pub fn lay(words: &mut [u64], mut book: Book, rule: Rule) -> Option<u32>
    requires book { ReadFrom words.old book }
    requires fine { fine (meant rule) ≡ true }
    ensures number { result ≡ pick (has_room book) (Some (length book.rules)) None }
    ensures words { words.new ≡ pick (has_room book) (rewritten words.old book (changed book.rules (lays (meant rule)))) words.old }
{
    let number = book.lay(rule)?;
    write_book(words, &book);
    Some(number)
}

/// The i-th rule goes from the words that the book was read from, and those after it move down one: its number, if there is such a
/// rule. Where there is none, nothing is written.
pub fn lift(words: &mut [u64], mut book: Book, i: u32) -> Option<u32>
    requires { ReadFrom words.old book }
    ensures number { result ≡ pick (has_rule book i) (Some i) None }
    ensures words { words.new ≡ pick (has_rule book i) (rewritten words.old book (changed book.rules (lifts i))) words.old }
{
    let number = book.lift(i)?;
    write_book(words, &book);
    Some(number)
}

impl Book {
    /// Where the scratch lies in the words that hold the book: behind the slots, up to the last word that is asked for. What is
    /// written there is cleared as soon as the book is written again.
    pub fn scratch(&self) -> Range<usize>
        ensures from { result.start ≡ scratch_from self.now.limit }
        ensures to { result.end ≡ asked self.now.limit }
    {
        FRONT + SLOT * self.limit as usize..words_asked(self.limit)
    }
}
