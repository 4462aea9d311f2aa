//! Rows with the most that is lost in each, and earnings with what more would do.
ghost use Rattle.std.specs.Prelude.{Some, codes};
ghost use Rattle.text.specs.Shown.{amount, losing_row, outlook_text, prospect};

use crate::answers::{Amount, Parted, Row, SafeFrom};
use std::fmt;

/// A row of those who lose by earning more, and the most that is lost in it, in ten-thousandths.
#[derive(Clone, Copy, Debug, PartialEq, Eq)]
pub struct RowLine {
    /// the first earning, in units
    pub first: u32,
    /// the last
    pub last: u32,
    /// in ten-thousandths
    pub most: u64,
}

/// Whether somebody loses by earning more; and if so, from where on it is safe to, if from anywhere.
#[derive(Clone, Copy, Debug, PartialEq, Eq)]
pub enum Outlook {
    /// of no larger earning, up to the bound, less is left
    NeverLoses,
    /// of some larger earning less is left; from `safe_from` on of none, up to the bound
    Loses { safe_from: Option<u32> },
}

/// An earning, what is left of it, and what more would do.
#[derive(Clone, Copy, Debug, PartialEq, Eq)]
pub struct Prospect {
    /// what is earned, in units
    pub gross: u32,
    /// what is left of it
    pub left: Amount,
    /// what more would do
    pub outlook: Outlook,
}

impl fmt::Display for RowLine {
    ghost output = { λ r. Some (losing_row r.first r.last r.most) };

    fn fmt<W: fmt::Write>(&self, f: &mut fmt::Formatter<W>) -> fmt::Result {
        let row = Row {
            first: self.first.into(),
            last: self.last.into(),
        };
        let most = Parted(self.most);
        write!(f, "{row}, up to {most} less")
    }
}

impl fmt::Display for Outlook {
    ghost output = { λ o. Some (outlook_text o) };

    fn fmt<W: fmt::Write>(&self, f: &mut fmt::Formatter<W>) -> fmt::Result {
        match *self {
            Outlook::NeverLoses => f.write_str("never loses by earning more"),
            Outlook::Loses { safe_from: None } => {
                f.write_str("loses by earning more, never safe")
            }
            Outlook::Loses {
                safe_from: Some(gross),
            } => {
                let safe = SafeFrom(gross.into());
                write!(f, "loses by earning more, {safe}")
            }
        }
    }
}

impl fmt::Display for Prospect {
    ghost output = { λ p. Some (prospect p.gross (amount p.left.inflow p.left.outflow) (outlook_text p.outlook)) };

    fn fmt<W: fmt::Write>(&self, f: &mut fmt::Formatter<W>) -> fmt::Result {
        write!(f, "{}: {} left, {}", self.gross, self.left, self.outlook)
    }
}
