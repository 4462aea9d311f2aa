//! A book as a value within limits: its rules, laid and lifted.
ghost use Rattle.std.specs.Prelude.{◌≡◌, ◌≤◌, true, [], length, Some, None};
ghost use Rattle.std.specs.List.{slice_get};
ghost use Rattle.raise.specs.Rules.{pick};
ghost use Rattle.raise.specs.Calls.{lays, lifts, changed, fine};
ghost use Rattle.wire.specs.Meaning.{meant};
ghost use Rattle.book.specs.Held.{with_rules, has_room, has_rule, Within};
ghost use Rattle.book.specs.Meant.{all_meant, meant_if};

use std::marker::Model;
use wire::Rule;

/// The most rules that any book may hold.
pub(crate) const MOST_RULES: usize = 64;

/// Stands where there is no rule.
pub(crate) const BLANK: Rule = Rule::Take {
    from: 0,
    to: 0,
    rate: 0,
};

/// How many rules it may hold, up to what earning it is asked, and the rules, the first `count` of the array, in the order in which
/// they were laid. Every book is within limits: at most 64 rules, a bound of at most 1,000,000,000, and every rule in range. The
/// rules lie in the value itself, since nothing here may ask the heap. Behind them every place is blank: so its limits and its rules
/// tell all fields, without which a value can't be copied.
#[derive(Clone, Copy, Debug)]
pub struct Book {
    pub(crate) limit: u32,
    pub(crate) bound: u32,
    pub(crate) count: usize,
    pub(crate) rules: [Rule; MOST_RULES],
}

impl Model for Book {
    ghost use Rattle.book.specs.Held as held;

    ghost Value = { held.Book };

    ghost use Rattle.book.specs.Value.{stands_for};
    ghost use Rattle.book.specs.Fields.{Kept, fields_of, given_back};

    ghost view = { stands_for };

    ghost invariant = { Kept };

    ghost inverse = { fields_of };

    ghost inverse_ok = { given_back };
}

impl Book {
    /// A book without rules.
    #[tactic(auto, unfolding(crate::specs::Held::all_fine))]
    pub fn new(limit: u32, bound: u32) -> Book
        requires few { limit ≤ 64 }
        requires low { bound ≤ 1000000000 }
        ensures { result ≡ record { limit = limit; bound = bound; rules = [] } }
    {
        Book {
            limit,
            bound,
            count: 0,
            rules: [BLANK; MOST_RULES],
        }
    }

    /// How many rules it may hold.
    pub fn limit(&self) -> u32
        ensures value { result ≡ self.now.limit }
        ensures few { result ≤ 64 }
    {
        self.limit
    }

    /// Up to what earning it is asked.
    pub fn bound(&self) -> u32
        ensures value { result ≡ self.now.bound }
        ensures low { result ≤ 1000000000 }
    {
        self.bound
    }

    /// The rules, in the order in which they were laid.
    pub fn rules(&self) -> &[Rule]
        ensures rules { all_meant result.now ≡ self.now.rules }
        ensures few { length result.now ≤ 64 }
        ensures within { Within self.now.rules }
    {
        &self.rules[..self.count]
    }

    /// The i-th rule, counted from 0, if there is one.
    pub fn rule(&self, i: u32) -> Option<Rule>
        ensures { meant_if result ≡ slice_get self.now.rules i }
    {
        self.rules().get(i as usize).copied()
    }

    /// One rule more, as the last: its number, if there is room for it.
    pub fn lay(&mut self, rule: Rule) -> Option<u32>
        requires { fine (meant rule) ≡ true }
        ensures number { result ≡ pick (has_room self.old) (Some (length self.old.rules)) None }
        ensures book { self.new ≡ pick (has_room self.old) (with_rules self.old (changed self.old.rules (lays (meant rule)))) self.old }
    {
        let number = self.count as u32;
        if number >= self.limit {
            return None;
        }
        self.rules[self.count] = rule;
        self.count += 1;
        Some(number)
    }

    /// The i-th rule goes, and those after it move down one: its number, if there is such a rule.
    pub fn lift(&mut self, i: u32) -> Option<u32>
        ensures number { result ≡ pick (has_rule self.old i) (Some i) None }
        ensures book { self.new ≡ pick (has_rule self.old i) (with_rules self.old (changed self.old.rules (lifts i))) self.old }
    {
        let place = i as usize;
        if place >= self.count {
            return None;
        }
        self.rules[place..self.count].rotate_left(1);
        self.count -= 1;
        self.rules[self.count] = BLANK;
        Some(i)
    }
}
