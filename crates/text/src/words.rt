//! The words of a line.
ghost use Rattle.std.specs.Prelude.{◌≡◌, ◌<◌, length, Some, None, MatchOption};
ghost use Rattle.std.specs.Str.{bytes_eq};
ghost use Rattle.text.specs.Words.{number_word, word_of, words_of};

use crate::cuts::{Stop, cut, next_word};
use crate::numbers::{hundredths, in_hundredths, read_number};
use arrayvec::ArrayVec;

/// A word, by what it says.
#[derive(Clone, Copy, Default)]
pub(crate) enum Word {
    Bound,
    Take,
    Give,
    Fade,
    From,
    To,
    On,
    Below,
    At,
    Above,
    Percent,
    Number(u32),
    /// with a point, in hundredths
    Decimal(u32),
    #[default]
    Other,
}

/// The most words that a line has that can be read: `fade 300 at 30 % above 500`, or `take 20 % from 1000 to 3000`.
pub(crate) const MOST_WORDS: usize = 7;

fn spells(word: &[u8], key: &str) -> bool
    ensures { result ≡ bytes_eq word.now key.now }
{
    word == key.as_bytes()
}

impl Word {
    /// A number, with a point in it or without.
    fn number(word: &[u8]) -> Option<Word>
        ensures { result ≡ number_word word.now }
    {
        let (whole, part) = cut(word, Stop::Point);
        let whole = read_number(whole)?;
        match part {
            [] => Some(Word::Number(whole)),
            [_, part @ ..] => Some(Word::Decimal(in_hundredths(whole, hundredths(part)?))),
        }
    }

    fn read(word: &[u8]) -> Word
        ensures { result ≡ word_of word.now }
    {
        if spells(word, "bound") {
            Word::Bound
        } else if spells(word, "take") {
            Word::Take
        } else if spells(word, "give") {
            Word::Give
        } else if spells(word, "fade") {
            Word::Fade
        } else if spells(word, "from") {
            Word::From
        } else if spells(word, "to") {
            Word::To
        } else if spells(word, "on") {
            Word::On
        } else if spells(word, "below") {
            Word::Below
        } else if spells(word, "at") {
            Word::At
        } else if spells(word, "above") {
            Word::Above
        } else if spells(word, "%") {
            Word::Percent
        } else {
            Word::number(word).unwrap_or(Word::Other)
        }
    }
}

/// The words of a line, up to its comment; none where there are more than any line has.
#[tactic(auto, unfolding(crate::specs::Words::words_of))]
pub(crate) fn read_words(line: &[u8]) -> Option<ArrayVec<Word, MOST_WORDS>>
    ensures { MatchOption result (7 < length (words_of line.now)) (λ words. words.items ≡ words_of line.now) }
{
    let (mut rest, _) = cut(line, Stop::Comment);
    let mut words = ArrayVec::new();
    while let Some((word, after)) = next_word(rest) {
        words.try_push(Word::read(word)).ok()?;
        rest = after;
    }
    Some(words)
}
