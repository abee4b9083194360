// A pension-book program: it reads a script of calls on a book, makes them in order, and prints a record
// of what each call answered.
#![tactic(auto)]

mod answer;
mod books;
mod failure;
mod input;
mod record;
mod stop;
mod table;
#[cfg(test)]
mod tests;

use failure::Failure;
use std::process::ExitCode;

fn run(rt: &HostRuntime) -> Result<(), Failure> {
    let text = input::read(rt)?;
    let parts = script::read(rt.alloc(), text.as_str())?;
    let record = record::record_of(rt.alloc(), parts.as_slice())?;
    rt.print(record).map_err(|why| Failure::Unwritten { why })
}

fn main(rt: HostRuntime) -> ExitCode {
    match run(&rt) {
        Ok(()) => ExitCode::SUCCESS,
        Err(why) => {
            let _ = eprintln!(rt; "talgwefri: {why}");
            ExitCode::FAILURE
        }
    }
}
