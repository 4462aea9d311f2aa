//! Tests of the layers between bytes and the session, as tables: which rules are in range, a book in words, its segments, the rows
//! of those who lose, from where on an earning is safe, and rows and safe grosses beside the slow ones.
#![tactic(auto)]

#[cfg(test)]
mod books;
#[cfg(test)]
mod losing;
#[cfg(test)]
mod many;
#[cfg(test)]
mod rules;
#[cfg(test)]
mod stretches;
#[cfg(test)]
mod tried;
