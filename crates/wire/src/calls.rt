//! Rules and calls, and how they are read from bytes.
ghost use Rattle.std.specs.Prelude.{◌≡◌, ◌+◌, true, length, Some, None, nat_lt};
ghost use Rattle.raise.specs.Rules.{pick, takes};
ghost use Rattle.raise.specs.Calls.{rule_number, lays};
ghost use Rattle.raise.specs.Promise.{readable_rule};
ghost use Rattle.wire.specs.Fields.{number_at};
ghost use Rattle.wire.specs.Meaning.{meant, kind_number, meant_or, field_or, asks_or};
ghost use Rattle.wire.specs.CallBytes.{numbers, rule_fields, call_bytes, rule_from, rule_of, laid, one_field, call_of, CallsReadBack, CallsDiffer, OnlyCallsRead, PlaceRight};

use crate::kinds::RuleKind;

/// A rule. Rates are in ten-thousandths of each unit, sums and borders in units. Any numbers may stand in it: which are in range is
/// `book`'s to say.
#[derive(Clone, Copy, Debug, PartialEq, Eq)]
pub enum Rule {
    /// a rate is taken of what is earned above `from`, up to `to`
    Take { from: u32, to: u32, rate: u32 },
    /// likewise, given
    Give { from: u32, to: u32, rate: u32 },
    /// a sum is taken where what is earned is `from` or more and below `to`
    TakeSum { from: u32, to: u32, sum: u32 },
    /// likewise, given
    GiveSum { from: u32, to: u32, sum: u32 },
    /// a sum is given, less a rate for each unit above `from`, and nothing where that would be below nothing: a benefit that tapers
    Fade { from: u32, rate: u32, sum: u32 },
}

impl Default for Rule {
    ghost is_default = { λ r. meant r ≡ takes 0 0 0 };

    /// Stands in the unused places of a book. It takes nothing, and is not in range.
    fn default() -> Rule {
        Rule::Take {
            from: 0,
            to: 0,
            rate: 0,
        }
    }
}

/// What is asked: a rule laid or lifted, or a question about an earning.
#[derive(Clone, Copy, Debug, PartialEq, Eq)]
pub enum Call {
    /// a rule comes into the book, as its last
    Lay(Rule),
    /// the rule of this number goes, and those after it have each one number less
    Lift(u32),
    /// what comes in and what goes out, at an earning
    Left(u32),
    /// the first row of those who lose, from an earning on
    Row(u32),
    /// from where on an earning is safe
    Safe(u32),
}

/// Bytes that are no call, by the place of the first that doesn't fit.
#[derive(Clone, Copy, Debug, PartialEq, Eq)]
pub struct Garbled {
    pub place: u64,
}

impl Rule {
    /// Which of the five kinds it is.
    #[tactic(auto, unfolding(raise::specs::Calls::rule_number))]
    pub fn kind(self) -> RuleKind
        ensures { kind_number result ≡ rule_number (meant self) }
    {
        match self {
            Rule::Take { .. } => RuleKind::Take,
            Rule::Give { .. } => RuleKind::Give,
            Rule::TakeSum { .. } => RuleKind::TakeSum,
            Rule::GiveSum { .. } => RuleKind::GiveSum,
            Rule::Fade { .. } => RuleKind::Fade,
        }
    }

    /// Its three numbers, in the order of its fields. With `kind` the way back from `RuleKind::rule`, and like it no `From`, which
    /// takes one value alone.
    #[tactic(auto, unfolding(raise::specs::Promise::readable_rule))]
    pub fn numbers(self) -> [u32; 3]
        ensures numbers { result ≡ numbers (meant self) }
        ensures fit { readable_rule (meant self) ≡ true }
    {
        match self {
            Rule::Take { from, to, rate } | Rule::Give { from, to, rate } => [from, to, rate],
            Rule::TakeSum { from, to, sum } | Rule::GiveSum { from, to, sum } => [from, to, sum],
            Rule::Fade { from, rate, sum } => [from, rate, sum],
        }
    }
}

/// A rule's three numbers, four bytes each.
fn rule_fields(rule: Rule) -> [u8; 12]
    ensures fields { result ≡ rule_fields (meant rule) }
    ensures fit { readable_rule (meant rule) ≡ true }
{
    let mut bytes = [0; 12];
    bytes.copy_from_slice(rule.numbers().map(u32::to_le_bytes).as_flattened());
    bytes
}

/// The kind of the call, that of the rule, and its fields.
#[tactic(auto, unfolding(raise::specs::Calls::rule_number))]
fn write_lay(rule: Rule) -> [u8; 14]
    ensures bytes { result ≡ call_bytes (lays (meant rule)) }
    ensures fit { readable_rule (meant rule) ≡ true }
{
    let mut bytes = [0; 14];
    bytes[1] = rule.kind() as u8;
    bytes[2..].copy_from_slice(&rule_fields(rule));
    bytes
}

/// The bytes of the call that lays a rule. They read back as that call.
#[tactic(auto, using(crate::proofs::CallLaws::laid_back))]
pub fn lay_bytes(rule: Rule) -> [u8; 14]
    ensures bytes { result ≡ call_bytes (lays (meant rule)) }
    ensures back { call_of result ≡ lays (meant rule) }
{
    write_lay(rule)
}

/// The field at `at`, low byte first, if its four bytes are there.
pub(crate) fn field(bytes: &[u8], at: usize) -> Option<u32>
    ensures { result ≡ pick (nat_lt (length bytes.now) (at + 4)) None (Some (number_at 4 bytes.now at)) }
{
    let four = bytes.get(at..)?.first_chunk()?;
    Some(u32::from_le_bytes(*four))
}

/// Bytes that end too early: the place is their number.
fn ends_early(bytes: &[u8]) -> Garbled
    ensures { result.place ≡ length bytes.now }
{
    // `usize` has no `From` to another width.
    let place = bytes.len() as u64;
    Garbled { place }
}

/// The rule of a kind from 0 to 4, by its three numbers; any other kind counts as 4. It takes a number and no `RuleKind`, so that
/// it asks nothing of who calls it.
pub fn rule_of_kind(kind: u8, from: u32, second: u32, last: u32) -> Rule
    ensures { meant result ≡ rule_from kind from second last }
{
    let kind = RuleKind::try_from(kind).unwrap_or(RuleKind::Fade);
    kind.rule([from, second, last])
}

/// The rule that a part of a call's bytes is, all of it.
fn read_rule(part: &[u8]) -> Result<Rule, Garbled>
    ensures { meant_or result ≡ rule_of part.now }
{
    let [kind, ..] = part else {
        return Err(Garbled { place: 0 });
    };
    let Ok(kind) = RuleKind::try_from(*kind) else {
        return Err(Garbled { place: 0 });
    };
    let Some(from) = field(part, 1) else {
        return Err(ends_early(part));
    };
    let Some(second) = field(part, 5) else {
        return Err(ends_early(part));
    };
    let Some(last) = field(part, 9) else {
        return Err(ends_early(part));
    };
    if part.len() > 13 {
        return Err(Garbled { place: 13 });
    }
    Ok(kind.rule([from, second, last]))
}

/// The one field of a call, and nothing after it.
fn read_field(bytes: &[u8]) -> Result<u32, Garbled>
    ensures { field_or result ≡ one_field bytes.now }
{
    let Some(value) = field(bytes, 1) else {
        return Err(ends_early(bytes));
    };
    if bytes.len() > 5 {
        return Err(Garbled { place: 5 });
    }
    Ok(value)
}

/// The rule that is laid, from the part of the bytes after the kind of the call.
fn read_lay(part: &[u8]) -> Result<Call, Garbled>
    ensures { asks_or result ≡ laid (rule_of part.now) }
{
    let rule = read_rule(part).map_err(|garbled| Garbled {
        place: garbled.place + 1,
    })?;
    Ok(Call::Lay(rule))
}

/// The call that the bytes are, apart from `read_call`, which would owe its theorems anew at each of these eleven returns.
fn parse(bytes: &[u8]) -> Result<Call, Garbled>
    ensures { asks_or result ≡ call_of bytes.now }
{
    match bytes {
        [0, rule @ ..] => read_lay(rule),
        [1, ..] => Ok(Call::Lift(read_field(bytes)?)),
        [2, ..] => Ok(Call::Left(read_field(bytes)?)),
        [3, ..] => Ok(Call::Row(read_field(bytes)?)),
        [4, ..] => Ok(Call::Safe(read_field(bytes)?)),
        _ => Err(Garbled { place: 0 }),
    }
}

/// The call that the bytes are, all of them, or the place of the first that doesn't fit.
/// A call that was written is read back, two calls have different bytes, only a call's own bytes are read as it, and the
/// place is right.
pub fn read_call(bytes: &[u8]) -> Result<Call, Garbled>
    ensures call { asks_or result ≡ call_of bytes.now }
    ensures back { CallsReadBack }
    ensures differ { CallsDiffer }
    ensures only { OnlyCallsRead }
    ensures place { PlaceRight }
{
    parse(bytes)
}
