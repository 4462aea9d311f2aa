//! Each form of a line as it is shown: answers, rows and earnings, and rules, which read back.
use std::process::Abort;
use std::test::Fail;
use text::{Amount, Line, Outlook, Prospect, RowLine, RuleLine, read_line, write_line};
use wire::{Answer, Call, Garbled, Refusal, Rule};

#[test]
fn amounts(rt: HostRuntime) -> Result<(), Fail> {
    let table = [
        (15995000, 0, "1599.5000"),
        (0, 5000, "-0.5000"),
        (0, 12500, "-1.2500"),
        (7, 7, "0.0000"),
        (u64::MAX, 0, "1844674407370955.1615"),
        (0, u64::MAX, "-1844674407370955.1615"),
    ];
    for (inflow, outflow, text) in table {
        let shown = Amount { inflow, outflow }.to_string(rt.alloc())?;
        assert_eq!(rt; shown.as_str(), text);
    }
    Ok(())
}

#[test]
fn answers(rt: HostRuntime) -> Result<(), Fail> {
    let (left, row, safe) = (Call::Left(9), Call::Row(0), Call::Safe(0));
    let refused = Answer::Refused(Refusal::MemoryTooSmall);
    let garbled = Answer::Refused(Refusal::Unreadable { place: 14 });
    let table = [
        (Ok(Call::Lift(0)), Answer::Number(3), "> rule 3\n"),
        (Ok(left), Answer::Two(95000, 20000), "> 7.5000\n"),
        (Ok(row), Answer::Two(1102, 1500), "> 1101 to 1499\n"),
        (Ok(row), Answer::Two(0, 0), "> none\n"),
        (Ok(safe), Answer::Number(1751), "> safe from 1750\n"),
        (Ok(safe), Answer::Number(0), "> none\n"),
        (Ok(left), refused, "> refused 3 at 2\n"),
        (Err(Garbled { place: 14 }), garbled, "> refused 1 at 14\n"),
    ];
    for (asked, answer, text) in table {
        let mut out = String::from_str(rt.alloc(), "> ")?;
        write_line(&mut out, &Line { asked, answer })?;
        assert_eq!(rt; out.as_str(), text);
    }
    Ok(())
}

#[test]
fn rows_and_earnings(rt: HostRuntime) -> Result<(), Fail> {
    let row = RowLine {
        first: 1101,
        last: 1499,
        most: 1995000,
    };
    let told = "1101 to 1499, up to 199.5000 less";
    assert_eq!(rt; row.to_string(rt.alloc())?.as_str(), told);
    let safe = "1300: -0.5000 left, loses by earning more, safe from 1625";
    let never_safe = "1300: -0.5000 left, loses by earning more, never safe";
    let never_loses = "1300: -0.5000 left, never loses by earning more";
    let safe_from = Some(1625);
    let table = [
        (Outlook::Loses { safe_from }, safe),
        (Outlook::Loses { safe_from: None }, never_safe),
        (Outlook::NeverLoses, never_loses),
    ];
    let left = Amount {
        inflow: 5000,
        outflow: 10000,
    };
    for (outlook, told) in table {
        let gross = 1300;
        let prospect = Prospect {
            gross,
            left,
            outlook,
        };
        assert_eq!(rt; prospect.to_string(rt.alloc())?.as_str(), told);
    }
    Ok(())
}

fn shown(rt: &(impl Abort + AllocGlobal), line: RuleLine, text: &str) -> Result<(), Fail> {
    let written = line.to_string(rt.alloc())?;
    assert_eq!(rt; written.as_str(), text);
    assert_eq!(rt; read_line(written.as_bytes()), Some(line), "at {text}");
    Ok(())
}

#[test]
fn rules(rt: HostRuntime) -> Result<(), Fail> {
    let (from, to, rate, sum) = (1000, 3000, 2000, 50);
    let table = [
        (Rule::Take { from, to, rate }, "take 20 % from 1000 to 3000"),
        (Rule::Give { from, to, rate }, "give 20 % from 1000 to 3000"),
        (Rule::TakeSum { from, to, sum }, "take 50 from 1000 to 3000"),
        (Rule::GiveSum { from, to, sum }, "give 50 from 1000 to 3000"),
        (Rule::Fade { from, rate, sum }, "fade 50 at 20 % above 1000"),
    ];
    for (rule, text) in table {
        shown(&rt, RuleLine::Rule(rule), text)?;
    }
    shown(&rt, RuleLine::Bound(5000), "bound 5000")?;
    shown(&rt, RuleLine::Empty, "")
}

#[test]
fn percentages(rt: HostRuntime) -> Result<(), Fail> {
    let table = [
        (0, "take 0 % from 0 to 9"),
        (1, "take 0.01 % from 0 to 9"),
        (10, "take 0.1 % from 0 to 9"),
        (1205, "take 12.05 % from 0 to 9"),
        (1250, "take 12.5 % from 0 to 9"),
        (1234, "take 12.34 % from 0 to 9"),
        (20000, "take 200 % from 0 to 9"),
    ];
    for (rate, text) in table {
        let (from, to) = (0, 9);
        shown(&rt, RuleLine::Rule(Rule::Take { from, to, rate }), text)?;
    }
    Ok(())
}
