// A sheet as a table, zeros as well.
use crate::books::Book;
use crate::stop::Stop;
use arithmetic::Arithmetic;
use std::fmt;

#[derive(Drop)]
pub(crate) struct Table {
    rows: Vec<Vec<String>>,
}

// The figures of a row, each by a call of its own.
fn row_of<F: Arithmetic + fmt::Display>(
    book: &Book<F>,
    sheet: usize,
    row: usize,
    columns: usize,
) -> Result<Vec<String>, Stop> {
    let heap = book.heap();
    (0..columns)
        .map(|column| -> Result<String, Stop> {
            Ok(book.cell(sheet, row, column)?.to_string(heap)?)
        })
        .try_collect(heap)
}

impl Table {
    // One cell at least is asked for, so that a sheet that is not there is sent back.
    pub(crate) fn of<F: Arithmetic + fmt::Display>(
        book: &Book<F>,
        sheet: usize,
    ) -> Result<Table, Stop> {
        let order = book.order().max(1);
        let rows = (0..order)
            .map(|row| row_of(book, sheet, row, order))
            .try_collect(book.heap())?;
        Ok(Table { rows })
    }

    // How wide a column is: as the widest figure, and enough for the number of any column.
    fn width(&self) -> usize {
        let cells = self.rows.iter().flatten();
        cells
            .map(|cell| cell.len())
            .fold(4, |width, length| width.max(length))
    }
}

fn write_row<W: fmt::Write>(
    f: &mut fmt::Formatter<W>,
    number: usize,
    cells: &[String],
    width: usize,
) -> fmt::Result {
    write!(f, "\n   row {number:<4}")?;
    for cell in cells {
        write!(f, " {cell:>width$}")?;
    }
    Ok(())
}

impl fmt::Display for Table {
    fn fmt<W: fmt::Write>(&self, f: &mut fmt::Formatter<W>) -> fmt::Result {
        let order = self.rows.len();
        let width = self.width();
        write!(f, "order {order}.\n   columns ")?;
        for column in 0..order {
            write!(f, " {column:>width$}")?;
        }
        for (number, row) in self.rows.iter().enumerate() {
            write_row(f, number, row.as_slice(), width)?;
        }
        Ok(())
    }
}
