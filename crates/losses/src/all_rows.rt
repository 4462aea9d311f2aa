//! All rows of a book, from the table of its segments, whose neighbours join.
ghost use Rattle.std.specs.Prelude.{◌≡◌, ◌+◌, ◌*◌, ◌<◌, ◌≤◌, List, length, IfSome};
ghost use Rattle.std.specs.List.{AllByRecursion};
ghost use Rattle.raise.specs.declared.LosingRow.{LosingRow};
ghost use Rattle.raise.specs.Rows.{LosingRows, losing_rows};
ghost use Rattle.lowest.specs.Entries.{width as entry_width};
ghost use Rattle.lowest.specs.Table.{table as table_of, most_entries, with_table};
ghost use Rattle.losses.specs.Parts.{joined};
ghost use Rattle.losses.specs.Words.{width, with_rows, with_row, how_many, Fits, Stored};

use crate::parts::losing_part;
use crate::words::put_row;
use book::Book;
use lowest::{ENTRY_WORDS, read_entry, write_table};
use raise::LosingRow;

/// The last row and the part as one, if there is such a row and nothing lies between.
fn joined(last: Option<LosingRow>, part: LosingRow) -> Option<LosingRow>
    requires { IfSome last (λ row. row.last < part.first) }
    ensures { result ≡ joined last part }
{
    let row = last?;
    (row.last + 1 == part.first).then_some(LosingRow {
        first: row.first,
        last: part.last,
    })
}

/// The row, if there is one, written as the i-th, and how many there are then.
fn end_row(rows: &mut [u64], i: usize, row: Option<LosingRow>) -> usize
    requires { IfSome row (λ r. width * i + width ≤ length rows.old) }
    ensures count { result ≡ how_many row + i }
    ensures rows { rows.new ≡ with_row rows.old i row }
{
    let Some(row) = row else {
        return i;
    };
    put_row(rows, i, row);
    i + 1
}

/// Reads the table backwards, so from the first segment on. The last row is written once the next part doesn't join it.
#[tactic(auto, using(crate::proofs::Walk::room, crate::proofs::Walk::ends_few))]
fn join_parts(book: &Book, table: &mut [u64], rows: &mut [u64]) -> usize
    requires table { entry_width * most_entries book.now.rules ≤ length table.old }
    requires rows { width * most_entries book.now.rules ≤ length rows.old }
    ensures count { result ≡ length (losing_rows book.now.rules book.now.bound) }
    ensures few { result ≤ most_entries book.now.rules }
    ensures rows { rows.new ≡ with_rows rows.old (losing_rows book.now.rules book.now.bound) }
    ensures fits { AllByRecursion Fits (losing_rows book.now.rules book.now.bound) }
    ensures table { table.new ≡ with_table table.old 0 (table_of book.now.rules book.now.bound) }
{
    let count = write_table(table, 0, book);
    let (entries, _) = table.as_chunks::<ENTRY_WORDS>();
    let mut written = 0;
    let mut last = None;
    for words in entries[..count].iter().rev() {
        let Some(part) = read_entry(words).and_then(losing_part) else {
            continue;
        };
        last = match joined(last, part) {
            None => {
                written = end_row(rows, written, last);
                Some(part)
            }
            longer => longer,
        };
    }
    end_row(rows, written, last)
}

/// The rows of all who lose, up to the bound, in the first words of `rows`, and how many there are: from the first to the
/// last, each as long as can be, and none left out. They are read off the table of the book, which is left in the first words of
/// `table`.
#[tactic(auto, using(crate::proofs::Slots::stored))]
pub fn write_rows(book: &Book, table: &mut [u64], rows: &mut [u64]) -> usize
    requires table { entry_width * most_entries book.now.rules ≤ length table.old }
    requires rows { width * most_entries book.now.rules ≤ length rows.old }
    ensures count { result ≡ length (losing_rows book.now.rules book.now.bound) }
    ensures few { result ≤ most_entries book.now.rules }
    ensures rows { rows.new ≡ with_rows rows.old (losing_rows book.now.rules book.now.bound) }
    ensures stored { Stored rows.new (losing_rows book.now.rules book.now.bound) }
    ensures table { table.new ≡ with_table table.old 0 (table_of book.now.rules book.now.bound) }
    ensures exact { LosingRows book.now.rules book.now.bound (losing_rows book.now.rules book.now.bound) }
    ensures only { (others : List LosingRow) → LosingRows book.now.rules book.now.bound others → others ≡ losing_rows book.now.rules book.now.bound }
{
    join_parts(book, table, rows)
}
