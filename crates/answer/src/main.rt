//! Answers a file of calls: a line for each. The file is named by the first word, or else it is standard input.
#![tactic(auto)]

mod faults;
mod transcript;

use faults::Fault;
use std::io::Read;
use std::process::ExitCode;
use std::{env, fs};
use transcript::answer_file;

const USAGE: &str = "\
usage: answer [FILE], or answer --help
Answers the calls in FILE, or in standard input without FILE, a line each. FILE begins with the limit of rules,
16 at most, and the bound, four bytes each, low byte first; then for each call its length in four bytes, and its bytes.
A call is a byte for its kind (0 lay, 1 lift, 2 left, 3 row, 4 safe) and its numbers, four bytes each; the rule
that is laid is a byte for its kind (0 take, 1 give, 2 take a sum, 3 give a sum, 4 fade) and three numbers.
";

/// What the command line asks.
#[derive(Drop)]
enum Asked {
    Help,
    /// the calls of the file that is named, or else of standard input
    Answers(Option<String>),
}

fn read_asked(rt: &HostRuntime) -> Result<Asked, Fault> {
    let mut words = env::args(rt).map_err(Fault::Words)?.skip(1);
    let name = words.next();
    if words.next().is_some() {
        return Err(Fault::Usage);
    }
    match name {
        Some(word) if matches!(word.as_str(), "--help" | "-h") => Ok(Asked::Help),
        name => Ok(Asked::Answers(name)),
    }
}

fn read_input(rt: &HostRuntime) -> Result<Vec<u8>, Fault> {
    let mut bytes = Vec::new(rt.alloc());
    rt.stdin().read_to_end(&mut bytes).map_err(Fault::Input)?;
    Ok(bytes)
}

/// The bytes of the file that is named, or else of standard input.
fn read_calls(rt: &HostRuntime, name: Option<String>) -> Result<Vec<u8>, Fault> {
    match name {
        None => read_input(rt),
        Some(name) => fs::read(rt, &name).map_err(|why| Fault::File { name, why }),
    }
}

fn run(rt: &HostRuntime) -> Result<(), Fault> {
    let name = match read_asked(rt)? {
        Asked::Help => return rt.print(USAGE).map_err(Fault::Output),
        Asked::Answers(name) => name,
    };
    let file = read_calls(rt, name)?;
    let Some(lines) = answer_file(rt.alloc(), &file)? else {
        return Err(Fault::Head { bytes: file.len() });
    };
    rt.print(lines).map_err(Fault::Output)
}

fn main(rt: HostRuntime) -> ExitCode {
    match run(&rt) {
        Ok(()) => ExitCode::SUCCESS,
        Err(fault) => {
            let _ = eprintln!(rt; "answer: {fault}");
            ExitCode::FAILURE
        }
    }
}
