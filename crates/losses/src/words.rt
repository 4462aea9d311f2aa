//! A row in words, both ways.
ghost use Rattle.std.specs.Prelude.{◌≡◌, ◌+◌, ◌*◌, ◌≤◌, length, Some};
ghost use Rattle.losses.specs.Words.{width, with_row, read_row, ReadsBack};

use raise::LosingRow;

/// How many words a row has.
pub const ROW_WORDS: usize = 2;

/// The i-th row, written.
pub(crate) fn put_row(words: &mut [u64], i: usize, row: LosingRow)
    requires { width * i + width ≤ length words.old }
    ensures { words.new ≡ with_row words.old i (Some row) }
{
    let at = ROW_WORDS * i;
    words[at..at + ROW_WORDS].copy_from_slice(&[row.first.into(), row.last.into()]);
}

/// The row that words hold, if they hold one. What was written is read back.
#[tactic(auto, using(crate::proofs::Slots::reads_back))]
pub fn read_row(words: &[u64; ROW_WORDS]) -> Option<LosingRow>
    ensures row { result ≡ read_row words.now }
    ensures back { ReadsBack }
{
    let [first, last] = *words;
    Some(LosingRow {
        first: u32::try_from(first).ok()?,
        last: u32::try_from(last).ok()?,
    })
}
