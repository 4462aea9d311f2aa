//! Lines that can be read, and what they say; and lines that can't, each for one reason.
use std::process::Abort;
use text::{RuleLine, read_line, read_number};
use wire::{Rule, RuleKind};

fn says(rt: &impl Abort, lines: &[&str], said: Option<RuleLine>) {
    for line in lines {
        assert_eq!(rt; read_line(line.as_bytes()), said, "at {line:?}");
    }
}

#[test]
fn each_form(rt: HostRuntime) {
    let table = [
        ("take 20 % from 10 to 30", RuleKind::Take, [10, 30, 2000]),
        (
            "take 40 % from 30 on",
            RuleKind::Take,
            [30, 1_000_000_000, 4000],
        ),
        ("take 12.5 % below 9", RuleKind::Take, [0, 9, 1250]),
        ("give 10 % from 5 to 9", RuleKind::Give, [5, 9, 1000]),
        ("take 50 from 15 to 20", RuleKind::TakeSum, [15, 20, 50]),
        (
            "take 50 from 15 on",
            RuleKind::TakeSum,
            [15, 1_000_000_000, 50],
        ),
        ("give 200 below 1500", RuleKind::GiveSum, [0, 1500, 200]),
        (
            "fade 300 at 30 % above 500",
            RuleKind::Fade,
            [500, 3000, 300],
        ),
        ("fade 7 at 0.25 % above 0", RuleKind::Fade, [0, 25, 7]),
    ];
    for (line, kind, numbers) in table {
        says(&rt, &[line], Some(RuleLine::Rule(kind.rule(numbers))));
    }
    says(
        &rt,
        &["bound 5000", "bound 005000"],
        Some(RuleLine::Bound(5000)),
    );
}

#[test]
fn blanks_and_comments(rt: HostRuntime) {
    let nothing = ["", " \t \r", "#", "  # a b c d e f g h i", "#bound 5000"];
    says(&rt, &nothing, Some(RuleLine::Empty));
    let lines = [
        "take 20 % from 10 to 30# a # b c d e f g",
        "take\t20\t%\tfrom\t10\tto\t30",
        "  take   20.0 \t %  from 010   to 30  ",
        "take 20.00 % from 10 to 30\r",
    ];
    let (from, to, rate) = (10, 30, 2000);
    says(
        &rt,
        &lines,
        Some(RuleLine::Rule(Rule::Take { from, to, rate })),
    );
}

#[test]
fn unreadable(rt: HostRuntime) {
    let words = [
        "tax 20 % from 0 to 9",
        "Take 20 % from 0 to 9",
        "bound5000",
        "bound",
        "bound 5000 6000",
        "bound \"5000\"",
        "bound\u{a0}5000",
        "bound 5000\n",
        "take from 0 to 9",
        "take 20 from 0",
        "take 20 % from 0 9",
        "take 20 % to 9 from 0",
        "take 5 from 0 on 9",
        "take 20 % above 0",
        "take take 20 % from 0 to 9",
        "fade 300 at 30 above 500",
        "fade 300 above 500 at 30 %",
        "fade 300 at 30 % above 500 500",
    ];
    says(&rt, &words, None);
    let numbers = [
        "bound 4294967296",
        "bound -5",
        "bound 5,000",
        "bound 1e3",
        "take 1.5 from 0 on",
        "take 20% from 0 to 9",
        "take 12.345 % from 0 to 9",
        "take .5 % from 0 to 9",
        "take 12. % from 0 to 9",
        "take 1.2.3 % from 0 to 9",
        "take 12,5 % from 0 to 9",
        "take 4294967296 % from 0 to 9",
    ];
    says(&rt, &numbers, None);
    assert_eq!(rt; read_line(&[255]), None);
}

#[test]
fn numbers(rt: HostRuntime) {
    let table = [
        ("0", Some(0)),
        ("007", Some(7)),
        ("0000000004294967295", Some(u32::MAX)),
        ("4294967296", None),
        ("18446744073709551617", None),
        ("", None),
        ("+1", None),
        ("1 ", None),
    ];
    for (word, number) in table {
        assert_eq!(rt; read_number(word.as_bytes()), number, "at {word:?}");
    }
}
