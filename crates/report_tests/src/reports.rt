//! A file and earnings, and what is printed: rows and lines, or the message on what doesn't fit.
use report::{Outcome, report};
use std::process::Abort;
use std::test::Fail;

/// What is told, or else the message.
type Printed<'a> = Result<&'a str, &'a str>;

fn prints(
    rt: &(impl Abort + AllocGlobal),
    file: &str,
    earnings: &[&str],
    wanted: Printed<'_>,
) -> Result<(), Fail> {
    let mut words = Vec::new(rt.alloc());
    for earning in earnings {
        words.push(String::from_str(rt.alloc(), earning)?)?;
    }
    let outcome = report(rt.alloc(), file, &words)?;
    let printed = match &outcome {
        Outcome::Told(text) => Ok(text.as_str()),
        Outcome::Refused(message) => Err(message.as_str()),
    };
    assert_eq!(rt; printed, wanted, "of {file}");
    Ok(())
}

const FAMILY: &str = "\
bound 5000
take 20 % from 1000 to 3000      # income tax
take 40 % from 3000 to 100000
give 200 below 1500              # the free school lunch
fade 300 at 30 % above 500       # rent aid
";

/// Of 1,499 there are 1,599.50 left, of 1,500 only 1,400. Earnings are told in the order of the words, each as often as it is named.
#[test]
fn family(rt: HostRuntime) -> Result<(), Fail> {
    let told = "\
1101 to 1499, up to 199.5000 less
1510: 1408.0000 left, never loses by earning more
1300: 1500.0000 left, loses by earning more, safe from 1625
1510: 1408.0000 left, never loses by earning more
";
    prints(&rt, FAMILY, &["1510", "01300", "1510"], Ok(told))
}

/// Two rows, one of a single earning; and a loss that nothing makes good.
#[test]
fn rows(rt: HostRuntime) -> Result<(), Fail> {
    let rules = "bound 40\ngive 2 below 10\ntake 4 from 20 on\n";
    let told = "\
9 to 9, up to 1.0000 less
17 to 19, up to 3.0000 less
9: 11.0000 left, loses by earning more, safe from 11
18: 18.0000 left, loses by earning more, safe from 22
20: 16.0000 left, never loses by earning more
";
    prints(&rt, rules, &["9", "18", "20"], Ok(told))?;
    let never = "\
13 to 19, up to 2.5000 less
13: 13.0000 left, loses by earning more, never safe
20: 12.5000 left, never loses by earning more
";
    let rules = "bound 20\ntake 150 % from 15 to 30\n";
    prints(&rt, rules, &["13", "20"], Ok(never))
}

/// A file that says nothing is asked up to one below a billion. What is given on is given below a billion, and no more at it.
#[test]
fn bounds(rt: HostRuntime) -> Result<(), Fail> {
    let none = "none\n999999999: 999999999.0000 left, never loses by earning more\n";
    let above = "\
cliffs: '1000000000' is no earning
expected a whole number up to the bound, which is 999999999
";
    for file in ["", "\n \t \r\n# bound 5\n\t# a", "bound 999999999"] {
        prints(&rt, file, &["999999999"], Ok(none))?;
        prints(&rt, file, &["1000000000"], Err(above))?;
    }
    let given = "\
999999996 to 999999999, up to 4.0000 less
1000000000: 1000000000.0000 left, never loses by earning more
";
    let file = "bound 1000000000\ngive 5 from 0 on";
    prints(&rt, file, &["1000000000"], Ok(given))
}

/// However the lines end, and whether the last one does: the last line is the one that makes 9 lose. A mark that an editor put before
/// the text says nothing.
#[test]
fn line_ends(rt: HostRuntime) -> Result<(), Fail> {
    let files = [
        "bound 40\ntake 2 from 10 on\n",
        "bound 40\r\ntake 2 from 10 on\r\n",
        "bound 40\ntake 2 from 10 on",
        "\u{feff}bound 40\ntake 2 from 10 on",
    ];
    for file in files {
        prints(&rt, file, &[], Ok("9 to 9, up to 1.0000 less\n"))?;
    }
    Ok(())
}

/// An earning that fits before it is not told, and a later word that doesn't fit is not the one that is shown.
#[test]
fn no_earnings(rt: HostRuntime) -> Result<(), Fail> {
    for word in ["", " 5", "-5", "1.5", "five", "٥", "41", "4294967301"] {
        let message = format!(in rt.alloc();
            "cliffs: '{word}' is no earning\nexpected a whole number up to the bound, which is 40\n"
        )?;
        prints(
            &rt,
            "bound 40\ntake 2 from 10 on",
            &["9", word, "no"],
            Err(&message),
        )?;
    }
    Ok(())
}

const FORMS: &str =
    "a line such as `bound 5000`, `take 12.5 % from 1000 to 3000`, `take 50 from 1500 on`, \
`give 200 below 1500` or `fade 300 at 30 % above 500`: small letters, words apart by blanks, whole numbers up to 4294967295, \
at most two decimals before %";

const RANGES: &str =
    "borders up to 1000000000, the first below the second; a rate up to 200 %, a sum up to 100000000";

/// What stands before the first line that doesn't fit, the line, which it is, and the number of its refusal.
type Misfit<'a> = (&'a str, &'a str, u32, u32);

/// It is shown as it stands, whatever comes after it, and whichever earnings are named.
fn refused(
    rt: &(impl Abort + AllocGlobal),
    table: &[Misfit<'_>],
    expected: &str,
) -> Result<(), Fail> {
    for (before, line, place, number) in table {
        let file = format!(in rt.alloc(); "{before}{line}\nnor is this")?;
        let message = format!(in rt.alloc();
            "cliffs: refused {number} at line {place}: {line}\nexpected {expected}\n"
        )?;
        prints(rt, &file, &["nor this"], Err(&message))?;
    }
    Ok(())
}

#[test]
fn no_lines(rt: HostRuntime) -> Result<(), Fail> {
    let unreadable = [
        ("bound 40\n# a\n\n", "  take 20% from 1 to 2 # b", 4, 1),
        ("", "tåke 5 from 1 on", 1, 1),
    ];
    refused(&rt, &unreadable, FORMS)?;
    let out_of_range = [
        ("bound 40\r\n", "give 5 below 0", 2, 2),
        ("", "take 200.01 % from 1 to 2", 1, 2),
        ("", "fade 5 at 5 % above 1000000001", 1, 2),
    ];
    refused(&rt, &out_of_range, RANGES)?;
    let too_high = [("", "bound 1000000001", 1, 3)];
    refused(&rt, &too_high, "a bound up to 1000000000")?;
    let too_late = [
        ("bound 9\n", "bound 1000000001", 2, 1),
        ("take 5 from 1 on\n", "bound 9", 2, 1),
    ];
    refused(&rt, &too_late, "one bound at most, before the first rule")?;
    // where carriage returns end lines, a comment would hide all that follows it
    let returns = [("bound 9\n", "# a\rtake 5 from 1 on", 2, 1)];
    refused(&rt, &returns, "lines that end with a newline")
}

/// Sixteen times a hundredth of each of ten units is taken.
const SIXTEEN: &str = "\
bound 40
take 1 % from 0 to 10\ntake 1 % from 0 to 10\ntake 1 % from 0 to 10\ntake 1 % from 0 to 10
take 1 % from 0 to 10\ntake 1 % from 0 to 10\ntake 1 % from 0 to 10\ntake 1 % from 0 to 10
take 1 % from 0 to 10\ntake 1 % from 0 to 10\ntake 1 % from 0 to 10\ntake 1 % from 0 to 10
take 1 % from 0 to 10\ntake 1 % from 0 to 10\ntake 1 % from 0 to 10\ntake 1 % from 0 to 10
";

/// A seventeenth rule is refused by 5, but by 2 where it is out of range.
#[test]
fn sixteen_rules(rt: HostRuntime) -> Result<(), Fail> {
    let told = "none\n10: 8.4000 left, never loses by earning more\n";
    prints(&rt, SIXTEEN, &["10"], Ok(told))?;
    let full = format!(in rt.alloc(); "{SIXTEEN}give 1 below 5")?;
    let message = "cliffs: refused 5 at line 18: give 1 below 5\nexpected 16 rules at most\n";
    prints(&rt, &full, &["10"], Err(message))?;
    let out_of_range = format!(in rt.alloc(); "{SIXTEEN}give 1 below 0")?;
    let message = format!(in rt.alloc();
        "cliffs: refused 2 at line 18: give 1 below 0\nexpected {RANGES}\n"
    )?;
    prints(&rt, &out_of_range, &["10"], Err(&message))
}
