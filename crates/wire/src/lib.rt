//! Calls and answers as bytes. This crate owns rules, calls, answers and refusals as values, their formats, and how a file is cut
//! into calls; specs/ says for every list of bytes what it is. Reading takes any bytes: what is no call is told by the place of its
//! first byte that doesn't fit.
#![tactic(auto)]

mod answers;
mod calls;
mod files;
mod kinds;

pub use answers::{Answer, Refusal, UnknownRefusal};
pub use calls::{Call, Garbled, Rule, lay_bytes, read_call, rule_of_kind};
pub use files::{Calls, Head, next_call, read_head};
pub use kinds::{RuleKind, UnknownKind};
