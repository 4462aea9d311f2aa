//! What is said of a line, or of an earning, that doesn't fit.
ghost use Rattle.std.specs.Prelude.{◌≡◌, string_bytes, IfOk};
ghost use Rattle.text.specs.RuleLines.{line_says};
ghost use Rattle.wire.specs.Meaning.{refusal_number};
ghost use Rattle.report.specs.Report.{forms, expected, misfit_text, no_earning_text};
ghost use Rattle.report.specs.Drafts.{misfit as misfit_meant};

use crate::reading::{Misfit, has_return};
use std::alloc::{AllocError, Global};
use text::{RuleLine, read_line};
use wire::Refusal;

/// What was expected of a line that can't stand where it does.
fn forms(line: &str) -> &'static str
    ensures { result.now ≡ forms (line_says line.now) }
{
    if let Some(RuleLine::Bound(_)) = read_line(line.as_bytes()) {
        return "one bound at most, before the first rule";
    }
    "a line such as `bound 5000`, `take 12.5 % from 1000 to 3000`, `take 50 from 1500 on`, \
`give 200 below 1500` or `fade 300 at 30 % above 500`: small letters, words apart by blanks, whole numbers up to 4294967295, \
at most two decimals before %"
}

/// What was expected where a line was refused.
#[tactic(auto, unfolding(crate::specs::Report::expected))]
fn expected(refusal: Refusal, line: &str) -> &'static str
    ensures { result.now ≡ expected (refusal_number refusal) line.now }
{
    match refusal.number() {
        1 if has_return(line) => "lines that end with a newline",
        1 => forms(line),
        2 => {
            "borders up to 1000000000, the first below the second; a rate up to 200 %, a sum up to 100000000"
        }
        3 => "a bound up to 1000000000",
        _ => "16 rules at most",
    }
}

/// The message on a line that was refused.
pub(crate) fn line_refused(heap: Global, misfit: Misfit<'_>) -> Result<String, AllocError>
    ensures { IfOk result (λ text. string_bytes text ≡ misfit_text (misfit_meant misfit.entry)) }
{
    let Misfit {
        line,
        text,
        refusal,
    } = misfit;
    let number = refusal.number();
    let expected = expected(refusal, text);
    format!(in heap; "cliffs: refused {number} at line {line}: {text}\nexpected {expected}\n")
}

/// The message on a word that is no earning up to the bound.
pub(crate) fn earning_refused(heap: Global, word: &str, bound: u32) -> Result<String, AllocError>
    ensures { IfOk result (λ text. string_bytes text ≡ no_earning_text bound word.now) }
{
    format!(in heap;
        "cliffs: '{word}' is no earning\nexpected a whole number up to the bound, which is {bound}\n"
    )
}
