//! As many rules as a book can hold, up to the greatest bound: no contract says that this takes no time that grows with the bound, or
//! doubles with each rule.
ghost use Rattle.std.specs.Prelude.{◌<◌};

use crate::books::*;
use crate::losing::*;
use crate::stretches::*;
use lowest::Entry;
use std::test::Fail;
use wire::RuleKind;

/// The segment before the i-th rule's, and the rule's own.
fn two_segments(i: u32) -> (Entry, Entry)
    requires { i < 64 }
{
    let from = 2 * i;
    let before = 20_000 * i64::from(i);
    let behind = Some(before + 20_000);
    (
        entry(from, from + 1, before, 10_000, behind),
        entry(from + 1, from + 2, before + 30_000, 10_000, behind),
    )
}

/// A sum of 2 is given at every other gross only, up to 127: each of these loses by the next unit. There are 129 segments.
#[test]
fn apart(rt: HostRuntime) -> Result<(), Fail> {
    let mut rules = [RuleKind::GiveSum.rule([1, 2, 2]); 64];
    let mut segments = [entry(128, MOST + 1, 1_280_000, 10_000, None); 129];
    let mut rows = [(1, 1); 64];
    for i in 0..64 {
        let at = 2 * i + 1;
        rules[i as usize] = RuleKind::GiveSum.rule([at, at + 1, 2]);
        rows[i as usize] = (at, at);
        let (before, with) = two_segments(i);
        segments[2 * i as usize] = before;
        segments[2 * i as usize + 1] = with;
    }
    let book = book_with(MOST, &rules)?;
    up(&rt, &book, &segments)?;
    stands(&rt, &book, &segments);
    lose(&rt, &book, &rows);
    most(&rt, &book, &[(0, MOST, 10_000), (64, 64, 0)]);
    safe(&rt, &book, &[(1, Some(3)), (127, Some(129)), (MOST, None)]);
    Ok(())
}
