// The commands of a script: how they are read, and how the record names them.
ghost use Rattle.std.specs.Prelude.{◌≤◌};
ghost use Rattle.script.specs.Left.{left};

use crate::fault::Fault;
use crate::lines::{Line, Lines};
use crate::listed::{Counted, Listed};
use crate::lists::{Entries, Lists, Working};
use spelling::Figure;
use std::fmt;

#[derive(Drop)]
pub enum Command<F> {
    Open {
        order: usize,
        capacity: usize,
    },
    Unit,
    Load(Entries<F>),
    Add {
        first: usize,
        second: usize,
    },
    Multiply {
        first: usize,
        second: usize,
    },
    Flip {
        sheet: usize,
    },
    Strike,
    Cell {
        sheet: usize,
        row: usize,
        column: usize,
    },
    Row {
        sheet: usize,
        row: usize,
    },
    ColumnWorking(Working<F>),
    RowWorking(Working<F>),
    Weigh(Lists<F>),
    Table {
        sheet: usize,
    },
    Arrays,
}

const COMMANDS: &str =
    "'open', 'unit', 'load', 'strike', 'cell', 'row', 'weigh', 'table' or 'arrays'";

impl<F: Figure> Command<F> {
    fn read_open(line: &Line<'_>) -> Result<Command<F>, Fault> {
        let order = line.number_at(0)? as usize;
        let capacity = line.capacity_at(1)? as usize;
        line.ends_after(2)?;
        Ok(Command::Open { order, capacity })
    }

    // The command that a line begins, with what the lines after it give up to `end`.
    pub(crate) fn read(line: &Line<'_>, lines: &mut Lines<'_>) -> Result<Command<F>, Fault>
        ensures { left lines.new ≤ left lines.old }
    {
        match line.head {
            "open" => Command::read_open(line),
            "unit" => line.ends_after(0).map(|()| Command::Unit),
            "load" => {
                line.ends_after(0)?;
                let entries = Entries::new(lines.heap);
                lines.read_up_to_end(entries).map(Command::Load)
            }
            "add" => {
                let [first, second] = line.numbers::<2>()?;
                Ok(Command::Add { first, second })
            }
            "multiply" => {
                let [first, second] = line.numbers::<2>()?;
                Ok(Command::Multiply { first, second })
            }
            "flip" => {
                let [sheet] = line.numbers::<1>()?;
                Ok(Command::Flip { sheet })
            }
            "strike" => line.ends_after(0).map(|()| Command::Strike),
            "cell" => {
                let [sheet, row, column] = line.numbers::<3>()?;
                Ok(Command::Cell { sheet, row, column })
            }
            "row" => {
                let [sheet, row] = line.numbers::<2>()?;
                Ok(Command::Row { sheet, row })
            }
            "column_working" => {
                let [sheet] = line.numbers::<1>()?;
                let working = Working::new(lines.heap, sheet);
                lines.read_up_to_end(working).map(Command::ColumnWorking)
            }
            "row_working" => {
                let [sheet] = line.numbers::<1>()?;
                let working = Working::new(lines.heap, sheet);
                lines.read_up_to_end(working).map(Command::RowWorking)
            }
            "weigh" => {
                line.ends_after(0)?;
                let lists = Lists::new(lines.heap);
                lines.read_up_to_end(lists).map(Command::Weigh)
            }
            "table" => {
                let [sheet] = line.numbers::<1>()?;
                Ok(Command::Table { sheet })
            }
            "arrays" => line.ends_after(0).map(|()| Command::Arrays),
            other => Err(line.fault(COMMANDS, other)),
        }
    }
}

impl<F: fmt::Display> fmt::Display for Command<F> {
    fn fmt<W: fmt::Write>(&self, f: &mut fmt::Formatter<W>) -> fmt::Result {
        match self {
            Command::Open { order, capacity } => {
                write!(f, "open of order {order} with capacity {capacity}")
            }
            Command::Unit => f.write_str("unit"),
            Command::Load(entries) => {
                let count = Counted(entries.values.len(), "entry", "entries");
                write!(f, "load of {count}")
            }
            Command::Add { first, second } => {
                write!(f, "add of sheet {first} and sheet {second}")
            }
            Command::Multiply { first, second } => {
                write!(f, "multiply of sheet {first} and sheet {second}")
            }
            Command::Flip { sheet } => write!(f, "flip of sheet {sheet}"),
            Command::Strike => f.write_str("strike"),
            Command::Cell { sheet, row, column } => {
                write!(f, "cell of sheet {sheet}, row {row}, column {column}")
            }
            Command::Row { sheet, row } => write!(f, "row of sheet {sheet}, row {row}"),
            Command::ColumnWorking(working) => write_working(f, "column_working", working),
            Command::RowWorking(working) => write_working(f, "row_working", working),
            Command::Weigh(lists) => {
                let first = Listed(lists.first.as_slice());
                let second = Listed(lists.second.as_slice());
                write!(f, "weigh of {first} against {second}")
            }
            Command::Table { sheet } => write!(f, "table of sheet {sheet}"),
            Command::Arrays => f.write_str("arrays"),
        }
    }
}

fn write_working<F: fmt::Display, W: fmt::Write>(
    f: &mut fmt::Formatter<W>,
    call: &str,
    working: &Working<F>,
) -> fmt::Result {
    let sheet = working.sheet;
    let given = Listed(working.given.as_slice());
    write!(f, "{call} of sheet {sheet} on {given}")
}
