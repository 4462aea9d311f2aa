//! Reads a family's rules as text and prints the rows of those who lose by earning more; then, for each earning that is named, what
//! more would do. The text is all of it the result of `report`; this program only reads the file and prints it.
#![tactic(auto)]

mod faults;

use faults::Fault;
use report::{Outcome, report};
use std::process::ExitCode;
use std::{env, fs, io};

const USAGE: &str = "\
usage: cliffs [FILE] [EARNING..], or cliffs --help
Prints the earnings at which somebody loses by earning more, as rows, with the most that is lost in each; then
for each EARNING what is left of it, whether somebody who has it loses by earning more, and if so from where on
it is safe. Rules are read from FILE, or from standard input; to name earnings without FILE write - first.
A line each, # begins a comment, 16 rules at most; a rate (up to two decimals) or a sum, take or give, with one of
from A to B, from A on, below B:
    bound 5000                     the highest earning that is looked at; first, or left out, then 999999999
    take 20 % from 1000 to 3000    of each unit that is earned above 1000, up to 3000
    take 50 from 1500 on           50 at once, where 1500 or more is earned
    give 200 below 1500            200, where less than 1500 is earned
    fade 300 at 30 % above 500     300 given, less 30 % of each unit that is earned above 500
Where a line or an EARNING doesn't fit, standard error says why, and the status is 1.
";

/// Where the rules come from.
#[derive(Drop)]
enum Source {
    Input,
    File(String),
}

/// What the command line asks.
#[derive(Drop)]
enum Asked {
    Help,
    Report {
        source: Source,
        earnings: Vec<String>,
    },
}

fn read_asked(rt: &HostRuntime) -> Result<Asked, Fault> {
    let mut words = env::args(rt).map_err(Fault::Words)?.skip(1);
    let source = match words.next() {
        None => Source::Input,
        Some(word) => match word.as_str() {
            "-" => Source::Input,
            "--help" | "-h" => return Ok(Asked::Help),
            name if name.starts_with('-') => return Err(Fault::Option { word }),
            _ => Source::File(word),
        },
    };
    let earnings = words.collect(rt.alloc())?;
    Ok(Asked::Report { source, earnings })
}

fn read_rules(rt: &HostRuntime, source: Source) -> Result<String, Fault> {
    match source {
        Source::Input => io::read_to_string(rt.alloc(), rt.stdin()).map_err(Fault::Input),
        Source::File(name) => {
            fs::read_to_string(rt, &name).map_err(|why| Fault::File { name, why })
        }
    }
}

fn run(rt: &HostRuntime) -> Result<ExitCode, Fault> {
    let (source, earnings) = match read_asked(rt)? {
        Asked::Help => {
            rt.print(USAGE).map_err(Fault::Output)?;
            return Ok(ExitCode::SUCCESS);
        }
        Asked::Report { source, earnings } => (source, earnings),
    };
    let rules = read_rules(rt, source)?;
    match report(rt.alloc(), &rules, &earnings)? {
        Outcome::Told(text) => {
            rt.print(text).map_err(Fault::Output)?;
            Ok(ExitCode::SUCCESS)
        }
        Outcome::Refused(message) => {
            let _ = eprint!(rt; "{message}");
            Ok(ExitCode::FAILURE)
        }
    }
}

fn main(rt: HostRuntime) -> ExitCode {
    match run(&rt) {
        Ok(code) => code,
        Err(fault) => {
            let _ = eprintln!(rt; "cliffs: {fault}");
            ExitCode::FAILURE
        }
    }
}
