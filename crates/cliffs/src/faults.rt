//! Why the program ends with status 1, apart from a line or an earning that doesn't fit.
use std::alloc::AllocError;
use std::io;
use thiserror::Error;

/// What ends the program with status 1, apart from a line or an earning that doesn't fit, and what is said of it on standard error.
#[derive(Debug, Drop, Error)]
pub enum Fault {
    /// the command line could not be read
    #[error("command line: {0}")]
    Words(io::Error),
    /// a first word that begins with '-' and is none of those that the usage names
    #[error("{word} is no option; --help shows the usage")]
    Option { word: String },
    /// the file that is named could not be read, or is no text
    #[error("{name}: {why}")]
    File { name: String, why: io::Error },
    /// nor standard input
    #[error("standard input: {0}")]
    Input(io::Error),
    /// the text could not be written
    #[error("standard output: {0}")]
    Output(io::Error),
    /// the heap refused
    #[error("out of memory")]
    Memory(#[from] AllocError),
}
