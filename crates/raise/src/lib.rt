//! Raises: at which earnings somebody loses by earning more. This crate owns the definitions (specs/): rules, what they
//! leave of an earning, who loses, calls and their answers, and the promises. Its functions are the scale of all amounts,
//! the laws of the definitions, and small worked books: what these claim is their contract.
#![tactic(auto)]

pub mod laws;
pub mod worked;

ghost use Rattle.std.specs.Prelude.{◌≡◌, ◌*◌};

/// Earnings that all lose by earning more, from the first to the last.
#[derive(Clone, Copy, Debug, PartialEq, Eq)]
pub struct LosingRow {
    /// in whole units, as every earning
    pub first: u32,
    /// itself one of them, so not below the first
    pub last: u32,
}

/// Whole units in ten-thousandths, as all amounts are.
pub fn ten_thousandths(units: u32) -> u64
    ensures { result ≡ 10000 * units }
{
    10_000 * u64::from(units)
}
