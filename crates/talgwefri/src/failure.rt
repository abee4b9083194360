// Why there is no record.
use script::Fault;
use std::alloc::AllocError;
use std::{fmt, io};

// What can fail to be read.
#[derive(Drop)]
pub(crate) enum Source {
    Arguments,
    StandardInput,
    File(String),
}

#[derive(Drop)]
pub(crate) enum Failure {
    // The input is no script.
    Script(Fault),
    // A line of the input, counted from 1, is no text.
    NoText { number: usize },
    Unread { source: Source, why: io::Error },
    // The record cannot be written.
    Unwritten { why: io::Error },
    // There is more than one argument.
    Usage,
    Memory,
}

impl From<Fault> for Failure {
    fn from(fault: Fault) -> Failure {
        Failure::Script(fault)
    }
}

impl From<AllocError> for Failure {
    fn from(_e: AllocError) -> Failure {
        Failure::Memory
    }
}

impl fmt::Display for Source {
    fn fmt<W: fmt::Write>(&self, f: &mut fmt::Formatter<W>) -> fmt::Result {
        match self {
            Source::Arguments => f.write_str("the arguments"),
            Source::StandardInput => f.write_str("standard input"),
            Source::File(name) => write!(f, "the file {name:?}"),
        }
    }
}

impl fmt::Display for Failure {
    fn fmt<W: fmt::Write>(&self, f: &mut fmt::Formatter<W>) -> fmt::Result {
        match self {
            Failure::Script(fault) => write!(f, "{fault}"),
            Failure::NoText { number } => {
                write!(
                    f,
                    "line {number}: expected text in UTF-8, found other bytes"
                )
            }
            Failure::Unread { source, why } => write!(f, "cannot read {source}: {why}"),
            Failure::Unwritten { why } => write!(f, "cannot write the record: {why}"),
            Failure::Usage => f.write_str("usage: talgwefri [FILE], at most one file"),
            Failure::Memory => f.write_str("out of memory"),
        }
    }
}
