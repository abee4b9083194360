// What a command that goes on up to `end` is given line by line.
use crate::fault::Fault;
use crate::lines::{Given, Line};
use spelling::Figure;
use std::alloc::Global;

// The entries of a load: the rows, the columns and the figures, each in its own list, as the library is lent them.
#[derive(Drop)]
pub struct Entries<F> {
    pub rows: Vec<u32>,
    pub columns: Vec<u32>,
    pub values: Vec<F>,
}

// The two lists of a weighing.
#[derive(Drop)]
pub struct Lists<F> {
    pub first: Vec<F>,
    pub second: Vec<F>,
}

// A sheet and the vector in of a working.
#[derive(Drop)]
pub struct Working<F> {
    pub sheet: usize,
    pub given: Vec<F>,
}

// The row, the column and the figure after `cell`.
fn read_entry<F: Figure>(line: &Line<'_>) -> Result<(u32, u32, F), Fault> {
    let row = line.number_at(0)?;
    let column = line.number_at(1)?;
    let value = line.figure_at(2)?;
    line.ends_after(3)?;
    Ok((row, column, value))
}

impl<F: Figure> Entries<F> {
    pub(crate) fn new(heap: Global) -> Entries<F> {
        Entries {
            rows: Vec::new(heap),
            columns: Vec::new(heap),
            values: Vec::new(heap),
        }
    }
}

impl<F: Figure> Lists<F> {
    pub(crate) fn new(heap: Global) -> Lists<F> {
        Lists {
            first: Vec::new(heap),
            second: Vec::new(heap),
        }
    }
}

impl<F: Figure> Working<F> {
    pub(crate) fn new(heap: Global, sheet: usize) -> Working<F> {
        Working {
            sheet,
            given: Vec::new(heap),
        }
    }
}

// Lines `cell ROW COLUMN FIGURE`.
impl<F: Figure> Given for Entries<F> {
    fn read_line(&mut self, line: &Line<'_>) -> Result<(), Fault> {
        if line.head != "cell" {
            return Err(line.fault("'cell' or 'end'", line.head));
        }
        let (row, column, value) = read_entry(line)?;
        self.rows.push(row)?;
        self.columns.push(column)?;
        self.values.push(value)?;
        Ok(())
    }
}

// Lines `first FIGURE …` and `second FIGURE …`.
impl<F: Figure> Given for Lists<F> {
    fn read_line(&mut self, line: &Line<'_>) -> Result<(), Fault> {
        match line.head {
            "first" => line.read_figures(&mut self.first),
            "second" => line.read_figures(&mut self.second),
            other => Err(line.fault("'first', 'second' or 'end'", other)),
        }
    }
}

// Lines `in FIGURE …`.
impl<F: Figure> Given for Working<F> {
    fn read_line(&mut self, line: &Line<'_>) -> Result<(), Fault> {
        match line.head {
            "in" => line.read_figures(&mut self.given),
            other => Err(line.fault("'in' or 'end'", other)),
        }
    }
}
