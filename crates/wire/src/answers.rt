//! Answers and refusals, and their 24 bytes.
ghost use Rattle.std.specs.Prelude.{◌≡◌, ◌≢◌, [], ◌∷◌, length, MatchOption};
ghost use Rattle.wire.specs.declared.answers.Refusal.TheVariants.{Unreadable};
ghost use Rattle.wire.specs.Fields.{number_at};
ghost use Rattle.wire.specs.Meaning.{refusal_number, refusal_place, says, says_if};
ghost use Rattle.wire.specs.AnswerBytes.{ReadsRefusal, answer_numbers, answer_bytes, answer_of, AnswersReadBack, OnlyAnswersRead, RefusalsRead};

use crate::calls::Garbled;

/// Why a call or an opening was turned away.
#[derive(Clone, Copy, Debug, PartialEq, Eq)]
pub enum Refusal {
    /// 1: the bytes are no call, from this place on
    Unreadable { place: u64 },
    /// 2: a rule out of range, or an earning above the bound
    OutOfRange,
    /// 3 at 0, at an opening: a limit of more than 64 rules
    TooManyRules,
    /// 3 at 1, at an opening: a bound above 1,000,000,000
    BoundTooHigh,
    /// 3 at 2: memory smaller than is asked for, or that holds no opened book
    MemoryTooSmall,
    /// 4: a rule that is not there
    NoSuchRule,
    /// 5: more rules than the limit
    BookFull,
}

/// What 24 bytes say. A refusal is one of the cases here, as it is among bytes; before that, a call comes to a `Result`.
#[derive(Clone, Copy, Debug, PartialEq, Eq)]
pub enum Answer {
    Refused(Refusal),
    /// the number of a rule; or one more than a safe earning, and 0 where there is none
    Number(u64),
    /// what comes in and what goes out; or one more than the first and the last of a row, and 0 and 0 where there is none
    Two(u64, u64),
}

impl Refusal {
    /// The number by which bytes and lines tell a refusal. A method, as `place`, since a `From` would give both at once.
    pub fn number(self) -> u64
        ensures { result ≡ refusal_number self }
    {
        match self {
            Refusal::Unreadable { .. } => 1,
            Refusal::OutOfRange => 2,
            Refusal::TooManyRules | Refusal::BoundTooHigh | Refusal::MemoryTooSmall => 3,
            Refusal::NoSuchRule => 4,
            Refusal::BookFull => 5,
        }
    }

    /// The place that goes with it: the first byte that doesn't fit, which of the limits of an opening, and else 0.
    pub fn place(self) -> u64
        ensures { result ≡ refusal_place self }
    {
        match self {
            Refusal::Unreadable { place } => place,
            Refusal::BoundTooHigh => 1,
            Refusal::MemoryTooSmall => 2,
            Refusal::OutOfRange | Refusal::TooManyRules | Refusal::NoSuchRule | Refusal::BookFull =>
                0,
        }
    }
}

/// A number and a place that no refusal has.
#[derive(Clone, Copy, Debug, PartialEq, Eq)]
pub struct UnknownRefusal {
    pub number: u64,
    pub place: u64,
}

// By its number and its place.
impl TryFrom<(u64, u64)> for Refusal {
    type Error = UnknownRefusal;

    ghost try_from_gives = { ReadsRefusal };

    fn try_from((number, place): (u64, u64)) -> Result<Self, UnknownRefusal> {
        match (number, place) {
            (1, _) => Ok(Refusal::Unreadable { place }),
            (2, 0) => Ok(Refusal::OutOfRange),
            (3, 0) => Ok(Refusal::TooManyRules),
            (3, 1) => Ok(Refusal::BoundTooHigh),
            (3, 2) => Ok(Refusal::MemoryTooSmall),
            (4, 0) => Ok(Refusal::NoSuchRule),
            (5, 0) => Ok(Refusal::BookFull),
            _ => Err(UnknownRefusal { number, place }),
        }
    }
}

impl From<Garbled> for Refusal {
    ghost from_gives = { λ garbled refusal. refusal ≡ Unreadable garbled.place };

    fn from(garbled: Garbled) -> Refusal {
        Refusal::Unreadable {
            place: garbled.place,
        }
    }
}

impl Answer {
    /// The three numbers that say it. No `From`, which would make a step of the format public.
    fn numbers(self) -> [u64; 3]
        ensures { result ≡ answer_numbers (says self) }
    {
        match self {
            Answer::Refused(refusal) => [0, refusal.number(), refusal.place()],
            Answer::Number(number) => [1, number, 0],
            Answer::Two(first, second) => [2, first, second],
        }
    }

    /// Named, as `from_bytes`, for what std calls the like.
    pub fn to_bytes(self) -> [u8; 24]
        ensures { result ≡ answer_bytes (says self) }
    {
        let mut bytes = [0; 24];
        bytes.copy_from_slice(self.numbers().map(u64::to_le_bytes).as_flattened());
        bytes
    }

    /// The answer that the bytes are, apart from `from_bytes`, which would owe its theorems anew at each of these seven returns.
    fn parse(bytes: &[u8]) -> Option<Answer>
        ensures { says_if result ≡ answer_of bytes.now }
    {
        let [first, second, third] = three_numbers(bytes)?;
        match first {
            0 => Some(Answer::Refused(Refusal::try_from((second, third)).ok()?)),
            1 if third == 0 => Some(Answer::Number(second)),
            2 => Some(Answer::Two(second, third)),
            _ => None,
        }
    }

    /// The answer that the bytes are, if they are one, all of them. What was written is read back, and only an answer's
    /// own bytes are read as it.
    pub fn from_bytes(bytes: &[u8]) -> Option<Answer>
        ensures answer { says_if result ≡ answer_of bytes.now }
        ensures back { AnswersReadBack }
        ensures only { OnlyAnswersRead }
        ensures known { RefusalsRead }
    {
        Answer::parse(bytes)
    }
}

/// The three numbers that bytes are, if there are 24 bytes, low byte first.
fn three_numbers(bytes: &[u8]) -> Option<[u64; 3]>
    ensures { MatchOption result (length bytes.now ≢ 24) (λ numbers. (length bytes.now ≡ 24) × (numbers ≡ number_at 8 bytes.now 0 ∷ (number_at 8 bytes.now 8 ∷ (number_at 8 bytes.now 16 ∷ [])))) }
{
    let ([first, second, third], []) = bytes.as_chunks() else {
        return None;
    };
    Some([
        u64::from_le_bytes(*first),
        u64::from_le_bytes(*second),
        u64::from_le_bytes(*third),
    ])
}
