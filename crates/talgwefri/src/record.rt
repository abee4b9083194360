// The record of a script: a numbered line for each command, with what the call answered.
use crate::answer::answer;
use crate::books::Book;
use crate::stop::{SentBack, Stop};
use arithmetic::Arithmetic;
use script::{Command, Part};
use std::alloc::{AllocError, Global};
use std::fmt;

#[derive(Drop)]
struct Record {
    text: String,
    // How many commands have been carried out.
    commands: usize,
}

impl Record {
    // Adds the line of a command, or the lines of a table and of arrays.
    fn carry_out_command<F: Arithmetic + fmt::Display>(
        &mut self,
        book: &mut Book<F>,
        command: &Command<F>,
    ) -> Result<(), AllocError> {
        self.commands = self.commands.saturating_add(1);
        let number = self.commands;
        match answer(book, command) {
            Ok(said) => writeln!(self.text, "{number}. {command}: {said}"),
            Err(Stop::SentBack(refusal)) => {
                let why = SentBack { refusal, command };
                writeln!(self.text, "{number}. {command}: {why}")
            }
            Err(Stop::Memory(why)) => Err(why),
        }
    }

    // Carries the commands of a part out, one after the other, without a book at first.
    fn carry_out<F: Arithmetic + fmt::Display>(
        &mut self,
        commands: &[Command<F>],
    ) -> Result<(), AllocError> {
        let mut book = Book::without_arrays(*self.text.allocator());
        for command in commands {
            self.carry_out_command(&mut book, command)?;
        }
        Ok(())
    }

    // The arms look alike, and each calls at an arithmetic of its own, so no pattern joins them.
    fn carry_out_part(&mut self, part: &Part) -> Result<(), AllocError> {
        match part {
            Part::Amounts(commands) => self.carry_out(commands.as_slice()),
            Part::YesOrNo(commands) => self.carry_out(commands.as_slice()),
            Part::Waits(commands) => self.carry_out(commands.as_slice()),
            Part::Blocks(commands) => self.carry_out(commands.as_slice()),
        }
    }
}

// Carries the parts of a script out, one after the other, and answers the record of them.
pub(crate) fn record_of(heap: Global, parts: &[Part]) -> Result<String, AllocError> {
    let mut record = Record {
        text: String::new(heap),
        commands: 0,
    };
    for part in parts {
        record.carry_out_part(part)?;
    }
    Ok(record.text)
}
