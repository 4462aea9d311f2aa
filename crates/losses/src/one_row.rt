//! The row from a gross on.
ghost use Rattle.std.specs.Prelude.{◌≡◌, ◌*◌, ◌≤◌, List, length};
ghost use Rattle.raise.specs.declared.LosingRow.{LosingRow};
ghost use Rattle.raise.specs.Rules.{first_losing};
ghost use Rattle.raise.specs.Calls.{Limits, row_from};
ghost use Rattle.raise.specs.Told.{row_told};
ghost use Rattle.raise.specs.Rows.{losing_rows, rest_from, first_row_from};
ghost use Rattle.lowest.specs.Entries.{width as entry_width};
ghost use Rattle.lowest.specs.Table.{table as table_of, most_entries, with_table};
ghost use Rattle.losses.specs.Words.{width, with_rows, Stored};

use crate::all_rows::write_rows;
use crate::words::{ROW_WORDS, read_row};
use book::Book;
use raise::LosingRow;

/// What of the row lies at the gross or above, if anything does.
fn rest_from(row: LosingRow, gross: u32) -> Option<LosingRow>
    ensures { result ≡ rest_from row gross }
{
    (gross <= row.last).then_some(LosingRow {
        first: gross.max(row.first),
        last: row.last,
    })
}

/// That of the first of so many rows of which anything does.
fn first_from(words: &[u64], count: usize, gross: u32) -> Option<LosingRow>
    requires { width * count ≤ length words.now }
    ensures { (rows : List LosingRow) → count ≡ length rows → Stored words.now rows → result ≡ first_row_from rows gross }
{
    let (rows, _) = words.as_chunks::<ROW_WORDS>();
    for words in &rows[..count] {
        let row = rest_from(read_row(words)?, gross);
        if row.is_some() {
            return row;
        }
    }
    None
}

/// The first row of those who lose, from a gross on: from its first, or from the gross where that lies in it, to its last. The table
/// of the book is left in the first words of `table`, and all its rows in the first of `rows`; the words behind them stay.
#[tactic(auto, using(crate::proofs::Firsts::row_is))]
pub fn row_from(book: &Book, table: &mut [u64], rows: &mut [u64], gross: u32) -> Option<LosingRow>
    requires table { entry_width * most_entries book.now.rules ≤ length table.old }
    requires rows { width * most_entries book.now.rules ≤ length rows.old }
    ensures row { (l : Limits) → l.bound ≡ book.now.bound → row_told result ≡ row_from l book.now.rules (first_losing book.now.rules book.now.bound gross) }
    ensures table { table.new ≡ with_table table.old 0 (table_of book.now.rules book.now.bound) }
    ensures rows { rows.new ≡ with_rows rows.old (losing_rows book.now.rules book.now.bound) }
{
    let count = write_rows(book, table, rows);
    first_from(rows, count, gross)
}
