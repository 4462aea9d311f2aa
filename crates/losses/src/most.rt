//! The most that is lost in a row of grosses.
ghost use Rattle.std.specs.Prelude.{◌≡◌, ℕ, suc, ◌*◌, ◌<◌, ◌≤◌, ◌↔◌, List, length};
ghost use Rattle.raise.specs.Rules.{Rule, lesser};
ghost use Rattle.raise.specs.Net.{net};
ghost use Rattle.raise.specs.Rows.{greater};
ghost use Rattle.lowest.specs.Entries.{width as entry_width};
ghost use Rattle.lowest.specs.Table.{table as table_of, most_entries, with_table, EntryOf, SizedEntry};
ghost use Rattle.losses.specs.Most.{part_on, least_with, fall_on, MostOver, most_lost, MostLost, NobodyIn, LossByLowest};

use book::Book;
use lowest::{ENTRY_WORDS, Entry, read_entry, write_table};
use raise::LosingRow;
use segments::Segment;

/// What of the row lies on the segment, if anything does.
fn part_on(row: LosingRow, segment: Segment) -> Option<LosingRow>
    requires { segment.from < segment.to }
    ensures { result ≡ part_on row segment.from segment.to }
{
    let first = segment.from.max(row.first);
    let last = (segment.to - 1).min(row.last);
    (first <= last).then_some(LosingRow { first, last })
}

/// The least of a net, of that at the segment's last, and of all beyond.
fn least_with(entry: Entry, net: i64) -> i64
    requires sized { SizedEntry entry }
    requires some { entry.segment.from < entry.segment.to }
    ensures { result ≡ least_with entry net }
{
    let end = net.min(entry.segment.net_at(entry.segment.to - 1));
    match entry.lowest_above {
        None => end,
        Some(beyond) => end.min(beyond),
    }
}

/// The most that those lose who are on a part of the entry's segment. Where the line falls, most is left at the part's first, and
/// least at the segment's last or beyond. Where it doesn't, most is left at the part's last, and less than that only beyond.
fn fall_on(entry: Entry, part: LosingRow) -> u64
    requires sized { SizedEntry entry }
    requires low { entry.segment.from ≤ part.first }
    requires some { part.first ≤ part.last }
    requires high { part.last < entry.segment.to }
    ensures { result ≡ fall_on entry part.first part.last }
{
    let last = entry.segment.net_at(part.last);
    let top = entry.segment.net_at(part.first).max(last);
    top.abs_diff(least_with(entry, last))
}

/// The most that those of the row lose who are on the entry's segment; 0 where nobody is.
#[tactic(auto, using(crate::proofs::Worst::on_row))]
fn most_on(entry: Entry, row: LosingRow) -> u64
    requires sized { SizedEntry entry }
    requires some { entry.segment.from < entry.segment.to }
    ensures { (rs : List Rule) (b : ℕ) → EntryOf rs b entry → MostOver (net rs) b (greater entry.segment.from row.first) (lesser entry.segment.to (suc row.last)) result }
{
    let Some(part) = part_on(row, entry.segment) else {
        return 0;
    };
    fall_on(entry, part)
}

/// The greatest of these, over all segments of the book.
#[tactic(auto, using(crate::proofs::Descent::readable))]
fn most_in(book: &Book, table: &mut [u64], row: LosingRow) -> u64
    requires { entry_width * most_entries book.now.rules ≤ length table.old }
    ensures most { MostLost book.now.rules book.now.bound row result }
    ensures table { table.new ≡ with_table table.old 0 (table_of book.now.rules book.now.bound) }
{
    let count = write_table(table, 0, book);
    let (entries, _) = table.as_chunks::<ENTRY_WORDS>();
    let mut most = 0;
    for words in &entries[..count] {
        let Some(entry) = read_entry(words) else {
            continue;
        };
        most = most.max(most_on(entry, row));
    }
    most
}

/// The most, in ten-thousandths, that anybody in a row loses by earning more, up to the bound; 0 where nobody in it does. The
/// row may be any, also one that is empty or that ends above the bound. The table of the book is left in the first words of
/// `scratch`.
#[tactic(auto, using(crate::proofs::Worst::is_the_most, crate::proofs::Worst::one_most, crate::proofs::Worst::nobody, crate::proofs::Worst::loss_by_lowest))]
pub fn most_lost(book: &Book, scratch: &mut [u64], row: LosingRow) -> u64
    requires { entry_width * most_entries book.now.rules ≤ length scratch.old }
    ensures most { result ≡ most_lost book.now.rules book.now.bound row }
    ensures exact { MostLost book.now.rules book.now.bound row result }
    ensures only { (n : ℕ) → MostLost book.now.rules book.now.bound row n → n ≡ result }
    ensures nobody { (result ≡ 0) ↔ NobodyIn book.now.rules book.now.bound row }
    ensures lowest { LossByLowest book.now.rules book.now.bound }
    ensures scratch { scratch.new ≡ with_table scratch.old 0 (table_of book.now.rules book.now.bound) }
{
    most_in(book, scratch, row)
}
