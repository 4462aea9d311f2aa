//! The kinds of rules, and the numbers that stand for them.
ghost use Rattle.std.specs.Prelude.{◌≡◌, slice_index};
ghost use Rattle.wire.specs.Meaning.{meant, kind_number, ReadsKind};
ghost use Rattle.wire.specs.CallBytes.{rule_from};

use crate::calls::Rule;

/// The five kinds, in the order of their numbers, from 0 on.
#[derive(Clone, Copy, Debug, PartialEq, Eq)]
pub enum RuleKind {
    Take,
    Give,
    TakeSum,
    GiveSum,
    Fade,
}

/// A number that stands for no kind.
#[derive(Clone, Copy, Debug, PartialEq, Eq)]
pub struct UnknownKind(pub u8);

impl TryFrom<u8> for RuleKind {
    type Error = UnknownKind;

    ghost try_from_gives = { ReadsKind };

    fn try_from(number: u8) -> Result<Self, UnknownKind> {
        match number {
            0 => Ok(RuleKind::Take),
            1 => Ok(RuleKind::Give),
            2 => Ok(RuleKind::TakeSum),
            3 => Ok(RuleKind::GiveSum),
            4 => Ok(RuleKind::Fade),
            _ => Err(UnknownKind(number)),
        }
    }
}

impl RuleKind {
    /// The rule of this kind, by its three numbers.
    pub fn rule(self, numbers: [u32; 3]) -> Rule
        ensures { meant result ≡ rule_from (kind_number self) (slice_index numbers 0) (slice_index numbers 1) (slice_index numbers 2) }
    {
        let [from, second, last] = numbers;
        match self {
            RuleKind::Take => Rule::Take {
                from,
                to: second,
                rate: last,
            },
            RuleKind::Give => Rule::Give {
                from,
                to: second,
                rate: last,
            },
            RuleKind::TakeSum => Rule::TakeSum {
                from,
                to: second,
                sum: last,
            },
            RuleKind::GiveSum => Rule::GiveSum {
                from,
                to: second,
                sum: last,
            },
            RuleKind::Fade => Rule::Fade {
                from,
                rate: second,
                sum: last,
            },
        }
    }
}
