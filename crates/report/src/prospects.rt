//! What more would do at the earnings that are named.
ghost use Rattle.std.specs.Prelude.{◌≡◌, ◌*◌, ◌≤◌, ◌++◌, map, length, string_bytes, OnOk};
ghost use Rattle.std.specs.List.{flat_map};
ghost use Rattle.lowest.specs.Entries.{width as entry_width};
ghost use Rattle.lowest.specs.Table.{most_entries};
ghost use Rattle.text.specs.Words.{number_of};
ghost use Rattle.report.specs.Report.{outlook, up_to, prospect_line, earning_line, no_earning};
ghost use Rattle.report.specs.Drafts.{shown_if};

use book::Book;
use losses::most_lost;
use raise::LosingRow;
use safety::safe_from;
use std::alloc::AllocError;
use text::{Amount, Outlook, Prospect, read_number};

/// Somebody loses by earning more just if the most that is lost there is more than nothing.
fn outlook(book: &Book, scratch: &mut [u64], gross: u32) -> Outlook
    requires { entry_width * most_entries book.now.rules ≤ length scratch.old }
    ensures outlook { result ≡ outlook book.now.rules book.now.bound gross }
    ensures room { length scratch.new ≡ length scratch.old }
{
    let alone = LosingRow {
        first: gross,
        last: gross,
    };
    if most_lost(book, scratch, alone) == 0 {
        return Outlook::NeverLoses;
    }
    Outlook::Loses {
        safe_from: safe_from(book, gross),
    }
}

fn write_prospect(
    book: &Book,
    scratch: &mut [u64],
    gross: u32,
    out: &mut String,
) -> Result<(), AllocError>
    requires { entry_width * most_entries book.now.rules ≤ length scratch.old }
    ensures line { OnOk result (string_bytes out.new ≡ string_bytes out.old ++ prospect_line book.now.rules book.now.bound gross) }
    ensures room { length scratch.new ≡ length scratch.old }
{
    let flows = book.flows_of(gross);
    let prospect = Prospect {
        gross,
        left: Amount {
            inflow: flows.inflow,
            outflow: flows.outflow,
        },
        outlook: outlook(book, scratch, gross),
    };
    let line = format!(in *out.allocator(); "{prospect}\n")?;
    out.push_str(&line)
}

/// The earning that a word is, if it is one up to the bound.
fn read_earning(book: &Book, word: &str) -> Option<u32>
    ensures { result ≡ up_to book.now.bound (number_of word.now) }
{
    let gross = read_number(word.as_bytes())?;
    (gross <= book.bound()).then_some(gross)
}

/// The first word that is no earning up to the bound.
#[tactic(auto, unfolding(crate::specs::Report::no_earning))]
pub(crate) fn no_earning<'a>(book: &Book, words: &'a [String]) -> Option<&'a str>
    ensures { shown_if result ≡ no_earning book.now.bound (map string_bytes words.now) }
{
    for word in words {
        if read_earning(book, word.as_str()).is_none() {
            return Some(word.as_str());
        }
    }
    None
}

/// A line for each of the words that is an earning up to the bound.
pub(crate) fn write_prospects(
    book: &Book,
    scratch: &mut [u64],
    words: &[String],
    out: &mut String,
) -> Result<(), AllocError>
    requires { entry_width * most_entries book.now.rules ≤ length scratch.old }
    ensures { OnOk result (string_bytes out.new ≡ string_bytes out.old ++ flat_map (earning_line book.now.rules book.now.bound) (map string_bytes words.now)) }
{
    for word in words {
        if let Some(gross) = read_earning(book, word.as_str()) {
            write_prospect(book, scratch, gross, out)?;
        }
    }
    Ok(())
}
