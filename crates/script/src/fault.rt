// Why a text is no script.
use std::alloc::{AllocError, AllocFailed, Global};
use std::error::Error;
use std::fmt;

// What stands in the text where something else was expected.
#[derive(Debug, Drop)]
pub enum Found {
    Word(String),
    EndOfLine,
    EndOfInput,
}

#[derive(Debug, Drop)]
pub enum Fault {
    // A line of the text, counted from 1, is not what was expected.
    Line {
        number: usize,
        expected: &'static str,
        found: Found,
    },
    Memory,
}

impl Fault {
    pub(crate) fn word(heap: Global, number: usize, expected: &'static str, word: &str) -> Fault {
        String::from_str(heap, word).map_or(
            Fault::Memory,
            |word| Fault::Line {
                number,
                expected,
                found: Found::Word(word),
            },
        )
    }
}

impl From<AllocError> for Fault {
    fn from(_e: AllocError) -> Fault {
        Fault::Memory
    }
}

impl<T: Drop> From<AllocFailed<T>> for Fault {
    fn from(_e: AllocFailed<T>) -> Fault {
        Fault::Memory
    }
}

impl fmt::Display for Found {
    fn fmt<W: fmt::Write>(&self, f: &mut fmt::Formatter<W>) -> fmt::Result {
        match self {
            Found::Word(word) => write!(f, "'{word}'"),
            Found::EndOfLine => write!(f, "the end of the line"),
            Found::EndOfInput => write!(f, "the end of the input"),
        }
    }
}

impl fmt::Display for Fault {
    fn fmt<W: fmt::Write>(&self, f: &mut fmt::Formatter<W>) -> fmt::Result {
        match self {
            Fault::Line {
                number,
                expected,
                found,
            } => write!(f, "line {number}: expected {expected}, found {found}"),
            Fault::Memory => write!(f, "out of memory"),
        }
    }
}

impl Error for Fault {}
