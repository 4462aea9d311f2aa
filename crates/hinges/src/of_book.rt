//! The hinges of each rule, and of a book.
ghost use Rattle.std.specs.Prelude.{◌≡◌, ◌+◌, ◌*◌, ◌≤◌, ◌++◌, pos, IsPermutation};
ghost use Rattle.raise.specs.Rules.{fades};
ghost use Rattle.arrayvec.specs.ArrayVec.{array_vec_len};
ghost use Rattle.wire.specs.Meaning.{meant};
ghost use Rattle.book.specs.Held.{Within};
ghost use Rattle.hinges.specs.Hinges.{stretch, hinges_of, faded, hinges, HingesOf, HingesTell, Mild, Ordered};

use crate::hinge::Hinge;
use arrayvec::ArrayVec;
use book::Book;
use raise::ten_thousandths;
use wire::Rule;

/// At most three of each of 64 rules, and that of the unit itself.
pub const MOST_HINGES: usize = 193;

/// The hinges of a book, in the value itself.
pub type Hinges = ArrayVec<Hinge, MOST_HINGES>;

/// What begins at a hinge, and ends at `to`.
fn push_stretch(hinges: &mut Hinges, first: Hinge, to: u32)
    requires room { array_vec_len hinges.old + 2 ≤ 193 }
    requires mild { Mild first }
    ensures { hinges.new.items ≡ hinges.old.items ++ stretch first to }
{
    hinges.push(first);
    hinges.push(Hinge {
        at: to,
        jump: -first.jump,
        pace: -first.pace,
    });
}

/// Where a fade is used up, if it ever is; past 32 bits at the last number that they have, far above every bound.
fn push_faded(hinges: &mut Hinges, from: u32, rate: u32, sum: u32)
    requires room { array_vec_len hinges.old + 1 ≤ 193 }
    ensures { hinges.new.items ≡ hinges.old.items ++ faded from rate (10000 * sum) }
{
    let amount = ten_thousandths(sum);
    let Some(units) = amount.checked_div(u64::from(rate)) else {
        return;
    };
    // No `From` narrows; it is below the rate.
    let over = (amount % u64::from(rate)) as i64;
    hinges.push(Hinge {
        at: u32::try_from(u64::from(from) + units + 1).unwrap_or(u32::MAX),
        jump: i64::from(rate) - over,
        pace: rate.into(),
    });
}

fn push_fade(hinges: &mut Hinges, from: u32, rate: u32, sum: u32)
    requires room { array_vec_len hinges.old + 3 ≤ 193 }
    ensures { hinges.new.items ≡ hinges.old.items ++ hinges_of (fades from rate sum) }
{
    hinges.push(Hinge {
        at: 0,
        jump: ten_thousandths(sum) as i64,
        pace: 0,
    });
    hinges.push(Hinge {
        at: from,
        jump: 0,
        pace: -i64::from(rate),
    });
    push_faded(hinges, from, rate, sum);
}

fn turning(at: u32, pace: i64) -> Hinge
    ensures { result ≡ record { at = at; jump = pos 0; pace = pace } }
{
    Hinge { at, jump: 0, pace }
}

fn jumping(at: u32, jump: i64) -> Hinge
    ensures { result ≡ record { at = at; jump = jump; pace = pos 0 } }
{
    Hinge { at, jump, pace: 0 }
}

/// Those of a rule.
fn push_rule(hinges: &mut Hinges, rule: Rule)
    requires { array_vec_len hinges.old + 3 ≤ 193 }
    ensures { hinges.new.items ≡ hinges.old.items ++ hinges_of (meant rule) }
{
    match rule {
        Rule::Take { from, to, rate } => {
            push_stretch(hinges, turning(from, -i64::from(rate)), to);
        }
        Rule::Give { from, to, rate } => push_stretch(hinges, turning(from, rate.into()), to),
        Rule::TakeSum { from, to, sum } => {
            push_stretch(hinges, jumping(from, -(ten_thousandths(sum) as i64)), to);
        }
        Rule::GiveSum { from, to, sum } => {
            push_stretch(hinges, jumping(from, ten_thousandths(sum) as i64), to);
        }
        Rule::Fade { from, rate, sum } => push_fade(hinges, from, rate, sum),
    }
}

/// In the order of where they are.
fn sort(hinges: &mut [Hinge])
    ensures same { IsPermutation hinges.old hinges.new }
    ensures ordered { Ordered hinges.new }
{
    hinges.sort_unstable_by_key(|hinge| hinge.at);
}

/// Those of a book, in the order of where they are. Inlined, since all of them would be copied where it returns.
#[tactic(auto, unfolding(crate::specs::Hinges::of_rules))]
#[inline(always)]
pub fn hinges_of(book: &Book) -> Hinges
    ensures within { Within book.now.rules }
    ensures of { HingesOf book.now.rules result.items }
    ensures ordered { Ordered result.items }
    ensures tell { HingesTell }
{
    let mut hinges = ArrayVec::new();
    hinges.push(turning(0, 10_000));
    for rule in book.rules() {
        push_rule(&mut hinges, *rule);
    }
    sort(hinges.as_mut_slice());
    hinges
}
