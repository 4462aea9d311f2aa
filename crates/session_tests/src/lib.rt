//! Tests of calls, answers and files as bytes, and of the session, as tables. They stand in a crate of their own, since a crate with
//! tests is proved twice.
#![tactic(auto)]

#[cfg(test)]
mod asking;
#[cfg(test)]
mod bytes;
#[cfg(test)]
mod refusals;
#[cfg(test)]
mod worked;
