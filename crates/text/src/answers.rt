//! Answers as text: one line for each answer, and amounts in units with four places after the point.
ghost use Rattle.std.specs.Prelude.{◌≡◌, ◌-◌, ◌++◌, None, Some, string_bytes, codes, OnErr, OnOk, ◌==◌};
ghost use Rattle.raise.specs.Rules.{pick};
ghost use Rattle.wire.specs.Meaning.{asks_or, says};
ghost use Rattle.text.specs.Shown.{parted, amount, or_none, row_text, safe_text, line, AmountsDiffer};

use std::alloc::AllocError;
use std::fmt;
use wire::{Answer, Call, Garbled};

/// What comes in and what goes out, in ten-thousandths of a unit; shown as the first less the second. The two of `book::Flows`
/// once more: only the crate of a type can say how it is shown, and `book` says nothing of text.
#[derive(Clone, Copy, Debug, PartialEq, Eq)]
pub struct Amount {
    /// what comes in
    pub inflow: u64,
    /// what goes out
    pub outflow: u64,
}

/// Ten-thousandths of a unit, by units and four digits.
#[derive(Clone, Copy)]
pub(crate) struct Parted(pub(crate) u64);

/// The first and the last earning of a row.
#[derive(Clone, Copy)]
pub(crate) struct Row {
    pub(crate) first: u64,
    pub(crate) last: u64,
}

/// The earning from which on it is safe.
#[derive(Clone, Copy)]
pub(crate) struct SafeFrom(pub(crate) u64);

/// A value, or "none".
#[derive(Clone, Copy)]
struct OrNone<T>(Option<T>);

/// What was asked and what was answered.
#[derive(Clone, Copy, Debug, PartialEq, Eq)]
pub struct Line {
    /// the call, or where its bytes cease to be one
    pub asked: Result<Call, Garbled>,
    /// the answer to it
    pub answer: Answer,
}

impl Row {
    /// The row of an answer, whose numbers are each one more than an earning, and 0 where there is no row.
    fn told(first: u64, last: u64) -> Option<Row>
        ensures { result ≡ pick (first == 0) None (Some (record { first = first - 1; last = last - 1 })) }
    {
        let first = first.checked_sub(1)?;
        let last = last.saturating_sub(1);
        Some(Row { first, last })
    }
}

impl SafeFrom {
    /// The earning of an answer, whose number is one more than it, and 0 where there is none.
    fn told(number: u64) -> Option<SafeFrom>
        ensures { result ≡ pick (number == 0) None (Some (record { 0 = number - 1 })) }
    {
        number.checked_sub(1).map(SafeFrom)
    }
}

impl fmt::Display for Parted {
    ghost output = { λ p. Some (parted p.0) };

    #[tactic(auto, using(crate::proofs::Amounts::parted_shown))]
    fn fmt<W: fmt::Write>(&self, f: &mut fmt::Formatter<W>) -> fmt::Result {
        write!(f, "{}.{:04}", self.0 / 10_000, self.0 % 10_000)
    }
}

impl fmt::Display for Amount {
    ghost output = { λ a. Some (amount a.inflow a.outflow) };

    fn fmt<W: fmt::Write>(&self, f: &mut fmt::Formatter<W>) -> fmt::Result {
        if self.inflow < self.outflow {
            let short = Parted(self.outflow - self.inflow);
            write!(f, "-{short}")
        } else {
            Parted(self.inflow - self.outflow).fmt(f)
        }
    }
}

impl fmt::Display for Row {
    ghost output = { λ r. Some (row_text r.first r.last) };

    fn fmt<W: fmt::Write>(&self, f: &mut fmt::Formatter<W>) -> fmt::Result {
        write!(f, "{} to {}", self.first, self.last)
    }
}

impl fmt::Display for SafeFrom {
    ghost output = { λ s. Some (safe_text s.0) };

    fn fmt<W: fmt::Write>(&self, f: &mut fmt::Formatter<W>) -> fmt::Result {
        write!(f, "safe from {}", self.0)
    }
}

impl<T: fmt::Display> fmt::Display for OrNone<T> {
    ghost output = { λ o. or_none T.output o.0 };

    fn fmt<W: fmt::Write>(&self, f: &mut fmt::Formatter<W>) -> fmt::Result {
        match &self.0 {
            Some(value) => value.fmt(f),
            None => f.write_str("none"),
        }
    }
}

impl fmt::Display for Line {
    ghost output = { λ l. Some (line (asks_or l.asked) (says l.answer)) };

    fn fmt<W: fmt::Write>(&self, f: &mut fmt::Formatter<W>) -> fmt::Result {
        match (self.answer, self.asked) {
            (Answer::Refused(refusal), _) => {
                write!(f, "refused {} at {}", refusal.number(), refusal.place())
            }
            (Answer::Number(number), Ok(Call::Safe(_))) => OrNone(SafeFrom::told(number)).fmt(f),
            (Answer::Number(number), _) => write!(f, "rule {number}"),
            (Answer::Two(first, last), Ok(Call::Row(_))) => OrNone(Row::told(first, last)).fmt(f),
            (Answer::Two(inflow, outflow), _) => Amount { inflow, outflow }.fmt(f),
        }
    }
}

/// Appends the line and a newline; where memory runs out, nothing. Amounts that are shown alike are the same.
#[tactic(auto, using(crate::proofs::Amounts::amounts_differ))]
pub fn write_line(out: &mut String, told: &Line) -> Result<(), AllocError>
    ensures written { OnOk result (string_bytes out.new ≡ string_bytes out.old ++ (line (asks_or told.now.asked) (says told.now.answer) ++ codes "\n")) }
    ensures same { OnErr result (string_bytes out.new ≡ string_bytes out.old) }
    ensures differ { AmountsDiffer }
{
    let alloc = *out.allocator();
    // No clause says what `writeln!` leaves of a string where memory runs out; `push_str` leaves it as it was.
    let text = format!(in alloc; "{told}\n")?;
    out.push_str(&text)
}
