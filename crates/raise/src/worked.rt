//! Small books, worked by hand: the row of those who lose, of all earnings up to the bound, or none. That these lose and no
//! others is proved by trying every earning with every larger one.
ghost use Rattle.raise.specs.Worked.{OnlyRow, full_tax, steep_tax, charge, taxed_fade};

use crate::LosingRow;

/// Take 0 to 10, 10,000; up to 20.
pub fn full_tax() -> Option<LosingRow>
    ensures { OnlyRow full_tax 20 result }
{
    None
}

/// Take 0 to 10, 12,000; up to 20.
pub fn steep_tax() -> Option<LosingRow>
    ensures { OnlyRow steep_tax 20 result }
{
    Some(LosingRow { first: 0, last: 9 })
}

/// Take a sum 10 to 20, 3; up to 30.
pub fn charge() -> Option<LosingRow>
    ensures { OnlyRow charge 30 result }
{
    Some(LosingRow { first: 8, last: 9 })
}

/// Fade 5, 9,000, 9; take 0 to 100, 2,000; up to 40.
pub fn taxed_fade() -> Option<LosingRow>
    ensures { OnlyRow taxed_fade 40 result }
{
    Some(LosingRow { first: 4, last: 14 })
}
