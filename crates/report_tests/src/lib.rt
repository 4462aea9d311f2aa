//! Tests of lines, both ways, and of what a file of rules and earnings come to, as tables. They stand in a crate of their own, since
//! a crate with tests is proved twice.
#![tactic(auto)]

#[cfg(test)]
mod lines;
#[cfg(test)]
mod reports;
#[cfg(test)]
mod shown;
