//! Why the program ends with status 1.
ghost use Rattle.std.specs.Prelude.{◌≡◌};
ghost use Rattle.answer.specs.Transcript.{missing};

use std::alloc::AllocError;
use std::io;
use thiserror::Error;

/// What ends the program with status 1, and what is said of it on standard error.
#[derive(Debug, Drop, Error)]
pub enum Fault {
    /// more than one word on the command line
    #[error("usage: answer [FILE], one file of calls, or standard input")]
    Usage,
    /// the command line could not be read
    #[error("command line: {0}")]
    Words(io::Error),
    /// the file that is named could not be read
    #[error("{name}: {why}")]
    File { name: String, why: io::Error },
    /// nor standard input
    #[error("standard input: {0}")]
    Input(io::Error),
    /// the text could not be written
    #[error("standard output: {0}")]
    Output(io::Error),
    /// a file that ends inside its head, and how many bytes it has
    #[error("a head of 8 bytes is wanted, the file ends after {bytes}: {missing}", missing = missing_after(*.bytes))]
    Head { bytes: usize },
    /// the heap refused
    #[error("out of memory")]
    Memory(#[from] AllocError),
}

/// What a head lacks that ends after so many bytes.
fn missing_after(bytes: usize) -> &'static str
    ensures { result.now ≡ missing bytes }
{
    if bytes < 4 {
        "the limit of rules and the bound are missing"
    } else {
        "the bound is missing"
    }
}
