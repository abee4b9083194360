// Where the text comes from: the file that the one argument names, or standard input.
use crate::failure::{Failure, Source};
use std::io::Read;
use std::{env, fs, io};

// The name of the file to read, if one is given.
fn file_name(rt: &HostRuntime) -> Result<Option<String>, Failure> {
    let mut words = env::args(rt).map_err(|why| Failure::Unread {
        source: Source::Arguments,
        why,
    })?;
    let _program = words.next();
    let name = words.next();
    if words.next().is_some() {
        return Err(Failure::Usage);
    }
    Ok(name)
}

fn standard_input(rt: &HostRuntime) -> io::Result<Vec<u8>> {
    let mut bytes = Vec::new(rt.alloc());
    rt.stdin().read_to_end(&mut bytes)?;
    Ok(bytes)
}

// The line, counted from 1, that the byte at `at` stands in.
fn line_of(bytes: &[u8], at: usize) -> usize {
    let ends = bytes.iter().take(at).filter(|b| **b == b'\n');
    ends.count().saturating_add(1)
}

fn as_text(bytes: Vec<u8>) -> Result<String, Failure> {
    String::from_utf8(bytes).map_err(|why| {
        let valid = why.utf8_error().valid_up_to();
        Failure::NoText {
            number: line_of(why.as_bytes(), valid),
        }
    })
}

// The bytes that are to be read, or from where they cannot be read.
fn read_bytes(rt: &HostRuntime) -> Result<Vec<u8>, Failure> {
    match file_name(rt)? {
        Some(name) => fs::read(rt, name.as_str()).map_err(|why| Failure::Unread {
            source: Source::File(name),
            why,
        }),
        None => standard_input(rt).map_err(|why| Failure::Unread {
            source: Source::StandardInput,
            why,
        }),
    }
}

pub(crate) fn read(rt: &HostRuntime) -> Result<String, Failure> {
    as_text(read_bytes(rt)?)
}
