//! What all rules together let in and out of a gross.
ghost use Rattle.std.specs.Prelude.{◌≡◌, ◌<◌, ◌^◌};
ghost use Rattle.raise.specs.Rules.{all_plus, all_minus};
ghost use Rattle.raise.specs.Net.{net};
ghost use Rattle.book.specs.Held.{AmountsFit};

use crate::rules::{Flows, flows_by};
use crate::value::Book;
use raise::ten_thousandths;

impl Book {
    /// What comes in with the gross, and what goes out. Neither has more than 63 bits.
    pub fn flows_of(&self, gross: u32) -> Flows
        ensures inflow { result.inflow ≡ all_plus self.now.rules gross }
        ensures outflow { result.outflow ≡ all_minus self.now.rules gross }
        ensures small { (result.inflow < 2 ^ 63) × (result.outflow < 2 ^ 63) }
        ensures fits { AmountsFit }
    {
        let mut inflow = ten_thousandths(gross);
        let mut outflow = 0;
        for rule in self.rules() {
            let flows = flows_by(*rule, gross);
            inflow += flows.inflow;
            outflow += flows.outflow;
        }
        Flows { inflow, outflow }
    }

    /// What is left of a gross; it may be less than nothing.
    pub fn net_of(&self, gross: u32) -> i64
        ensures { result ≡ net self.now.rules gross }
    {
        let flows = self.flows_of(gross);
        // No `From` goes from `u64` to `i64`; both have at most 63 bits.
        flows.inflow as i64 - flows.outflow as i64
    }
}
