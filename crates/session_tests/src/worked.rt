//! Books that were worked by hand: those of `raise::worked`, a family's, and one up to the greatest bound.
use crate::asking::*;
use std::test::Fail;
use wire::Answer;

#[test]
fn no_rules(rt: HostRuntime) -> Result<(), Fail> {
    let table = [
        (LEFT, 300, Answer::Two(3_000_000, 0)),
        (ROW, 0, Answer::Two(0, 0)),
        (SAFE, 0, Answer::Number(2)),
        (SAFE, 300, Answer::Number(0)),
    ];
    answers(&rt, &[], 300, &table)
}

/// A tax of all of each unit up to 10: nobody loses, and nobody wins below 10.
#[test]
fn full_tax(rt: HostRuntime) -> Result<(), Fail> {
    let table = [
        (ROW, 0, Answer::Two(0, 0)),
        (LEFT, 10, Answer::Two(100_000, 100_000)),
        (LEFT, 11, Answer::Two(110_000, 100_000)),
        (SAFE, 3, Answer::Number(5)),
    ];
    answers(&rt, &[(TAKE, 0, 10, 10_000)], 20, &table)
}

/// One of a fifth more: 0 to 9 lose. Of 10 two less are left than of 0, and of 12 as much. A fifth given makes it good.
#[test]
fn steep_tax(rt: HostRuntime) -> Result<(), Fail> {
    let table = [
        (ROW, 0, Answer::Two(1, 10)),
        (ROW, 9, Answer::Two(10, 10)),
        (ROW, 10, Answer::Two(0, 0)),
        (LEFT, 10, Answer::Two(100_000, 120_000)),
        (SAFE, 0, Answer::Number(13)),
        (SAFE, 9, Answer::Number(12)),
        (SAFE, 20, Answer::Number(0)),
    ];
    answers(&rt, &[(TAKE, 0, 10, 12_000)], 20, &table)?;
    let made_good = [
        (ROW, 0, Answer::Two(0, 0)),
        (LEFT, 10, Answer::Two(120_000, 120_000)),
        (SAFE, 0, Answer::Number(2)),
    ];
    let rules = [(TAKE, 0, 10, 12_000), (GIVE, 0, 10, 2_000)];
    answers(&rt, &rules, 20, &made_good)
}

/// A charge of 3 from 10 on, up to before 20: 8 and 9 lose. Of 9 as much is left as of 12, and of 10 and 11 less.
#[test]
fn charge(rt: HostRuntime) -> Result<(), Fail> {
    let table = [
        (ROW, 0, Answer::Two(9, 10)),
        (LEFT, 9, Answer::Two(90_000, 0)),
        (LEFT, 10, Answer::Two(100_000, 30_000)),
        (LEFT, 11, Answer::Two(110_000, 30_000)),
        (LEFT, 12, Answer::Two(120_000, 30_000)),
        (LEFT, 20, Answer::Two(200_000, 0)),
        (SAFE, 9, Answer::Number(13)),
    ];
    answers(&rt, &[(TAKE_SUM, 10, 20, 3)], 30, &table)
}

/// A fade takes nine tenths of each unit between 5 and 15, and a tax two tenths more: 5 loses with 6, and of 4 more is left than of
/// 14 and 15.
#[test]
fn taxed_fade(rt: HostRuntime) -> Result<(), Fail> {
    let table = [
        (ROW, 0, Answer::Two(5, 15)),
        (LEFT, 4, Answer::Two(130_000, 8_000)),
        (LEFT, 5, Answer::Two(140_000, 10_000)),
        (LEFT, 6, Answer::Two(141_000, 12_000)),
        (LEFT, 14, Answer::Two(149_000, 28_000)),
        (LEFT, 15, Answer::Two(150_000, 30_000)),
        (SAFE, 4, Answer::Number(17)),
        (SAFE, 5, Answer::Number(18)),
    ];
    let rules = [(FADE, 5, 9_000, 9), (TAKE, 0, 100, 2_000)];
    answers(&rt, &rules, 40, &table)
}

const FAMILY: [(u8, u32, u32, u32); 4] = [
    (TAKE, 1_000, 3_000, 2_000),
    (TAKE, 3_000, 100_000, 4_000),
    (GIVE_SUM, 0, 1_500, 200),
    (FADE, 500, 3_000, 300),
];

/// A tax of a fifth above 1,000 and of two above 3,000; 200 below 1,500, and 300 that fade by 30 % above 500: 1,350 are left of
/// 1,000, 1,599.50 of 1,499, 1,400 of 1,500 and 2,600 of 3,000. 1,101 to 1,499 lose; whoever earns 1,300 is safe only from 1,625 on.
#[test]
fn family(rt: HostRuntime) -> Result<(), Fail> {
    let table = [
        (LEFT, 1_000, Answer::Two(13_500_000, 0)),
        (LEFT, 1_300, Answer::Two(15_600_000, 600_000)),
        (LEFT, 1_499, Answer::Two(16_993_000, 998_000)),
        (LEFT, 1_500, Answer::Two(15_000_000, 1_000_000)),
        (LEFT, 3_000, Answer::Two(30_000_000, 4_000_000)),
        (ROW, 0, Answer::Two(1_102, 1_500)),
        (ROW, 1_300, Answer::Two(1_301, 1_500)),
        (ROW, 1_500, Answer::Two(0, 0)),
        (SAFE, 1_499, Answer::Number(1_751)),
        (SAFE, 1_400, Answer::Number(1_689)),
        (SAFE, 1_300, Answer::Number(1_626)),
        (SAFE, 1_000, Answer::Number(1_002)),
    ];
    answers(&rt, &FAMILY, 5_000, &table)
}

/// Without the 200, nobody loses, and the fade is the third rule. Laid again as the last rule, they make the same losers.
#[test]
fn lifted_and_laid_again(rt: HostRuntime) -> Result<(), Fail> {
    let mut words = opened(4, 5_000)?;
    all_laid(&rt, &mut words, &FAMILY);
    let without = [
        (LIFT, 2, Answer::Number(2)),
        (LEFT, 1_499, Answer::Two(14_993_000, 998_000)),
        (ROW, 0, Answer::Two(0, 0)),
        (SAFE, 1_300, Answer::Number(1_302)),
    ];
    all_say(&rt, &mut words, &without);
    let again = lay(GIVE_SUM, 0, 1_500, 200);
    says(&rt, &mut words, &again, Answer::Number(3));
    let with = [
        (ROW, 0, Answer::Two(1_102, 1_500)),
        (LIFT, 2, Answer::Number(2)),
        (LEFT, 1_499, Answer::Two(16_990_000, 998_000)),
    ];
    all_say(&rt, &mut words, &with);
    Ok(())
}

/// A fifth more than all of ten million units is taken, and of each unit above them a tenth is left: whoever earns nothing has as
/// much with thirty million.
#[test]
fn up_to_the_greatest_bound(rt: HostRuntime) -> Result<(), Fail> {
    let at_most = Answer::Two(10_000_000_000_000, 9_030_000_000_000);
    let table = [
        (LEFT, MOST, at_most),
        (ROW, 0, Answer::Two(1, 10_000_000)),
        (ROW, 10_000_000, Answer::Two(0, 0)),
        (SAFE, 0, Answer::Number(30_000_001)),
        (SAFE, 10_000_000, Answer::Number(10_000_002)),
        (SAFE, MOST, Answer::Number(0)),
    ];
    let rules = [
        (TAKE, 0, 10_000_000, 12_000),
        (TAKE, 10_000_000, MOST, 9_000),
    ];
    answers(&rt, &rules, MOST, &table)
}
