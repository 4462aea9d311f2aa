//! The rows of a book as text.
ghost use Rattle.std.specs.Prelude.{◌≡◌, ◌+◌, ◌*◌, ◌≤◌, ◌++◌, List, map, length, Some, string_bytes, OnOk};
ghost use Rattle.std.specs.List.{flat_map};
ghost use Rattle.raise.specs.declared.LosingRow.{LosingRow};
ghost use Rattle.lowest.specs.Entries.{width as entry_width};
ghost use Rattle.lowest.specs.Table.{most_entries};
ghost use Rattle.losses.specs.Words.{row_room, read_row};
ghost use Rattle.report.specs.Report.{losing_row_line, rows_text};

use book::Book;
use losses::{ROW_WORDS, most_lost, write_rows};
use raise::LosingRow;
use std::alloc::AllocError;
use text::RowLine;

/// A row's line, with the most that is lost in it.
fn write_row(
    book: &Book,
    table: &mut [u64],
    row: LosingRow,
    out: &mut String,
) -> Result<(), AllocError>
    requires { entry_width * most_entries book.now.rules ≤ length table.old }
    ensures line { OnOk result (string_bytes out.new ≡ string_bytes out.old ++ losing_row_line book.now.rules book.now.bound row) }
    ensures room { length table.new ≡ length table.old }
{
    let row = RowLine {
        first: row.first,
        last: row.last,
        most: most_lost(book, table, row),
    };
    let line = format!(in *out.allocator(); "{row}\n")?;
    out.push_str(&line)
}

/// The lines of those rows that words hold.
fn write_each(
    book: &Book,
    table: &mut [u64],
    rows: &[[u64; ROW_WORDS]],
    out: &mut String,
) -> Result<(), AllocError>
    requires { entry_width * most_entries book.now.rules ≤ length table.old }
    ensures { (told : List LosingRow) → map read_row rows.now ≡ map Some told → OnOk result (string_bytes out.new ≡ string_bytes out.old ++ flat_map (losing_row_line book.now.rules book.now.bound) told) }
{
    for words in rows {
        let Some(row) = losses::read_row(words) else {
            continue;
        };
        write_row(book, table, row, out)?;
    }
    Ok(())
}

/// All rows, from the first to the last, or "none".
pub(crate) fn write_row_lines(
    book: &Book,
    scratch: &mut [u64],
    out: &mut String,
) -> Result<(), AllocError>
    requires { row_room book.now.rules ≤ length scratch.old }
    ensures { OnOk result (string_bytes out.new ≡ string_bytes out.old ++ rows_text book.now.rules book.now.bound) }
{
    let (table, rows) = scratch.split_at_mut(lowest::words_for(book));
    let count = write_rows(book, table, rows);
    if count == 0 {
        return out.push_str("none\n");
    }
    let (rows, _) = rows.as_chunks::<ROW_WORDS>();
    write_each(book, table, &rows[..count], out)
}
