//! The walk from the bound down, segment by segment, that writes the table.
ghost use Rattle.std.specs.Prelude.{◌≡◌, ◌+◌, ◌*◌, ◌≤◌, ◌++◌, length, take, drop};
ghost use Rattle.std.specs.List.{AllByRecursion};
ghost use Rattle.lowest.specs.Entries.{width, entry_words, table_words, Fits};
ghost use Rattle.lowest.specs.Table.{table, most_entries, with_table, IsTable, SizedEntry, TableTells, Stored};

use crate::entries::{ENTRY_WORDS, Entry};
use book::Book;
use hinges::{Sweep, hinges_of};

/// The i-th entry of a part, written.
fn put_entry(part: &mut [u64], i: usize, entry: Entry)
    requires { width * i + width ≤ length part.old }
    ensures { part.new ≡ take (width * i) part.old ++ (entry_words entry ++ drop (width * i + width) part.old) }
{
    let at = ENTRY_WORDS * i;
    part[at..at + ENTRY_WORDS].copy_from_slice(&entry.words());
}

/// The table from the beginning of the part on, and how many entries it has.
#[tactic(auto, using(crate::proofs::Walk::begins))]
fn write_entries(part: &mut [u64], book: &Book) -> usize
    requires { width * most_entries book.now.rules ≤ length part.old }
    ensures count { result ≡ length (table book.now.rules book.now.bound) }
    ensures part { part.new ≡ table_words (table book.now.rules book.now.bound) ++ drop (width * result) part.old }
    ensures sized { AllByRecursion SizedEntry (table book.now.rules book.now.bound) }
    ensures fits { AllByRecursion Fits (table book.now.rules book.now.bound) }
{
    let in_order = hinges_of(book);
    let hinges = in_order.as_slice();
    let mut count = 0;
    let mut last = book.bound();
    let mut sweep = Sweep::up_to(hinges, last);
    let mut lowest_above = None;
    'breakpoints: loop {
        let segment = sweep.segment(hinges, last);
        let entry = Entry {
            segment,
            lowest_above,
        };
        put_entry(part, count, entry);
        count += 1;
        if segment.from == 0 {
            break 'breakpoints;
        }
        lowest_above = Some(entry.lowest());
        last = segment.from - 1;
        sweep = sweep.back_to(segment);
        // The hinges at the breakpoint are undone one by one; once all there are, the next segment ends before it.
        loop {
            let Some(fewer) = sweep.without_last(hinges, segment.from) else {
                sweep = sweep.one_below(hinges, segment.from);
                continue 'breakpoints;
            };
            sweep = fewer;
        }
    }
    count
}

/// How many segments a book has at most, and so how many entries its table has.
pub fn most_entries(book: &Book) -> usize
    ensures value { result ≡ most_entries book.now.rules }
    ensures few { result ≤ 129 }
{
    2 * book.rules().len() + 1
}

/// How many words the table of a book asks for at most.
pub fn words_for(book: &Book) -> usize
    ensures value { result ≡ width * most_entries book.now.rules }
    ensures few { result ≤ 774 }
{
    ENTRY_WORDS * most_entries(book)
}

/// The table of the book, in a part of the words that begins at the `at`-th, and how many entries it has: the segments of the book
/// from the last down to the first, each with the lowest net of all grosses beyond it, up to the bound. By it alone one can say of
/// every gross up to the bound whether it loses. The words outside the entries stay.
#[tactic(auto, using(crate::proofs::Words::stored_at, crate::proofs::Walk::few_in, crate::proofs::Tells::table_tells))]
pub fn write_table(words: &mut [u64], at: usize, book: &Book) -> usize
    requires { at + width * most_entries book.now.rules ≤ length words.old }
    ensures count { result ≡ length (table book.now.rules book.now.bound) }
    ensures few { result ≤ most_entries book.now.rules }
    ensures words { words.new ≡ with_table words.old at (table book.now.rules book.now.bound) }
    ensures stored { Stored (drop at words.new) (table book.now.rules book.now.bound) }
    ensures sized { AllByRecursion SizedEntry (table book.now.rules book.now.bound) }
    ensures table { IsTable }
    ensures tells { TableTells }
{
    write_entries(&mut words[at..], book)
}
