//! Rules as lines, both ways.
ghost use Rattle.std.specs.Prelude.{◌≡◌, List, Some};
ghost use Rattle.wire.specs.Meaning.{meant};
ghost use Rattle.text.specs.RuleLines.{lays, span_of, rate_of, flow_of, taken, given, said_by, line_says, said, percentage, line_text, ReadsBack, FormsRead};

use crate::numbers::in_hundredths;
use crate::words::{Word, read_words};
use std::fmt;
use wire::Rule;

/// The end of what is given or taken "on": no rule reaches beyond, and a sum ends one before it.
const ON: u32 = 1_000_000_000;

/// What a line says.
#[derive(Clone, Copy, Debug, PartialEq, Eq)]
pub enum RuleLine {
    /// nothing, or a comment alone
    Empty,
    /// the highest earning that is looked at
    Bound(u32),
    /// any rule, also one out of range
    Rule(Rule),
}

/// From where on, up to where.
#[derive(Clone, Copy)]
struct Span {
    from: u32,
    to: u32,
}

/// What is taken or given: so many ten-thousandths of each unit, or a sum.
#[derive(Clone, Copy)]
enum Flow {
    Rate(Span, u32),
    Sum(Span, u32),
}

impl Flow {
    fn taken(self) -> Rule
        ensures { lays (meant result) ≡ taken (Some self) }
    {
        match self {
            Flow::Rate(Span { from, to }, rate) => Rule::Take { from, to, rate },
            Flow::Sum(Span { from, to }, sum) => Rule::TakeSum { from, to, sum },
        }
    }

    fn given(self) -> Rule
        ensures { lays (meant result) ≡ given (Some self) }
    {
        match self {
            Flow::Rate(Span { from, to }, rate) => Rule::Give { from, to, rate },
            Flow::Sum(Span { from, to }, sum) => Rule::GiveSum { from, to, sum },
        }
    }
}

fn read_span(words: &[Word]) -> Option<Span>
    ensures { result ≡ span_of words.now }
{
    match words {
        [Word::From, Word::Number(from), Word::To, Word::Number(to)] => Some(Span {
            from: *from,
            to: *to,
        }),
        [Word::From, Word::Number(from), Word::On] => Some(Span {
            from: *from,
            to: ON,
        }),
        [Word::Below, Word::Number(to)] => Some(Span { from: 0, to: *to }),
        _ => None,
    }
}

/// A percentage, in ten-thousandths.
fn read_rate(word: Word) -> Option<u32>
    ensures { result ≡ rate_of word }
{
    match word {
        Word::Number(percent) => Some(in_hundredths(percent, 0)),
        Word::Decimal(hundredths) => Some(hundredths),
        _ => None,
    }
}

fn read_flow(words: &[Word]) -> Option<Flow>
    ensures { result ≡ flow_of words.now }
{
    match words {
        [rate, Word::Percent, span @ ..] => Some(Flow::Rate(read_span(span)?, read_rate(*rate)?)),
        [Word::Number(sum), span @ ..] => Some(Flow::Sum(read_span(span)?, *sum)),
        _ => None,
    }
}

fn read_rule(words: &[Word]) -> Option<RuleLine>
    ensures { said result ≡ said_by words.now }
{
    match words {
        [] => Some(RuleLine::Empty),
        [Word::Bound, Word::Number(bound)] => Some(RuleLine::Bound(*bound)),
        [Word::Take, flow @ ..] => Some(RuleLine::Rule(read_flow(flow)?.taken())),
        [Word::Give, flow @ ..] => Some(RuleLine::Rule(read_flow(flow)?.given())),
        [
            Word::Fade,
            Word::Number(sum),
            Word::At,
            rate,
            Word::Percent,
            Word::Above,
            Word::Number(from),
        ] => {
            Some(RuleLine::Rule(Rule::Fade {
                from: *from,
                rate: read_rate(*rate)?,
                sum: *sum,
            }))
        }
        _ => None,
    }
}

/// What a line says, by its words.
#[tactic(auto, using(crate::proofs::ReadBack::too_many), unfolding(crate::specs::RuleLines::line_says))]
fn parse_line(line: &[u8]) -> Option<RuleLine>
    ensures { said result ≡ line_says line.now }
{
    read_rule(read_words(line)?.as_slice())
}

/// What a line says, without its newline; none where it can't be read. The line that is written of a bound or of a rule reads back,
/// and each form of a line says what it is to say.
#[tactic(auto, using(crate::proofs::ReadBack::reads_back, crate::proofs::ReadBack::forms_read))]
pub fn read_line(line: &[u8]) -> Option<RuleLine>
    ensures said { said result ≡ line_says line.now }
    ensures back { ReadsBack }
    ensures forms { FormsRead }
{
    parse_line(line)
}

/// A rate in ten-thousandths, as a percentage.
#[derive(Clone, Copy)]
struct Percentage(u32);

impl fmt::Display for Percentage {
    ghost output = { λ p. Some (percentage p.0) };

    fn fmt<W: fmt::Write>(&self, f: &mut fmt::Formatter<W>) -> fmt::Result {
        let (whole, tenths, hundredths) = (self.0 / 100, self.0 / 10 % 10, self.0 % 10);
        if self.0 % 100 == 0 {
            write!(f, "{whole}")
        } else if hundredths == 0 {
            write!(f, "{whole}.{tenths}")
        } else {
            write!(f, "{whole}.{tenths}{hundredths}")
        }
    }
}

impl fmt::Display for RuleLine {
    ghost output = { λ l. Some (line_text (said (Some l))) };

    fn fmt<W: fmt::Write>(&self, f: &mut fmt::Formatter<W>) -> fmt::Result {
        match *self {
            RuleLine::Empty => Ok(()),
            RuleLine::Bound(bound) => write!(f, "bound {bound}"),
            RuleLine::Rule(Rule::Take { from, to, rate }) => write!(
                f,
                "take {} % from {from} to {to}",
                Percentage(rate)
            ),
            RuleLine::Rule(Rule::Give { from, to, rate }) => write!(
                f,
                "give {} % from {from} to {to}",
                Percentage(rate)
            ),
            RuleLine::Rule(Rule::TakeSum { from, to, sum }) => write!(
                f,
                "take {sum} from {from} to {to}"
            ),
            RuleLine::Rule(Rule::GiveSum { from, to, sum }) => write!(
                f,
                "give {sum} from {from} to {to}"
            ),
            RuleLine::Rule(Rule::Fade { from, rate, sum }) => write!(
                f,
                "fade {sum} at {} % above {from}",
                Percentage(rate)
            ),
        }
    }
}
