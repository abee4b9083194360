ghost use Rattle.book.specs.Workings.{WorkingFound, ColumnWorked, RowWorked};

use crate::check::check_book;
use crate::header::Header;
use crate::places::sheet_at;
use arithmetic::Arithmetic;
use sheet::{Refusal, Sheet};
use workings::{work_columns, work_rows};

// The checks that both workings begin with: the book, the lengths of the vector in and the vector out, the
// sheet. Answers the sheet.
fn find_working<'a, F: Arithmetic>(
    header: &[u32],
    index: &'a [u32],
    figures: &'a [F],
    sheet: usize,
    given: &[F],
    out: &[F],
) -> Result<Sheet<'a, F>, Refusal>
    ensures { WorkingFound (record { header = header.now; index = index.now; figures = figures.now }) sheet given.now out.now result }
{
    check_book(header, index, figures)?;
    let header = Header { words: header };
    let order = header.order();
    if given.len() != order {
        return Err(Refusal::Lengths(0));
    }
    if out.len() != order {
        return Err(Refusal::Lengths(1));
    }
    header.check_there(sheet)?;
    Ok(sheet_at(order, index, figures, header.place_of(sheet)))
}

// A sheet times the vector x: out(i) becomes the sum of cell(i, j) × x(j) over the columns j. Answers 0.
pub fn column_working<F: Arithmetic>(
    header: &[u32],
    index: &[u32],
    figures: &[F],
    sheet: usize,
    x: &[F],
    out: &mut [F],
) -> Result<usize, Refusal>
    ensures { ColumnWorked F.Arithmetic.figures (record { header = header.now; index = index.now; figures = figures.now }) sheet x.now out.old result out.new }
{
    let sheet = find_working(header, index, figures, sheet, x, out)?;
    work_columns(&sheet, x, out);
    Ok(0)
}

// The vector y times a sheet: out(j) becomes the sum of y(i) × cell(i, j) over the rows i. Answers 0. The two workings
// stay apart: one function for both would take the working as a closure, and its contract would name what the closure
// ensures in place of the vector times the sheet.
pub fn row_working<F: Arithmetic>(
    header: &[u32],
    index: &[u32],
    figures: &[F],
    sheet: usize,
    y: &[F],
    out: &mut [F],
) -> Result<usize, Refusal>
    ensures { RowWorked F.Arithmetic.figures (record { header = header.now; index = index.now; figures = figures.now }) sheet y.now out.old result out.new }
{
    let sheet = find_working(header, index, figures, sheet, y, out)?;
    work_rows(&sheet, y, out);
    Ok(0)
}
