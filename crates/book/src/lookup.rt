ghost use Rattle.book.specs.Checked.{SheetFound};
ghost use Rattle.book.specs.Lookups.{CellIs, RowIs, RowPartIs, Between};

use crate::check::check_book;
use crate::header::Header;
use crate::places::sheet_at;
use arithmetic::Arithmetic;
use sheet::Refusal;

// Checks the book, and answers where this sheet begins and ends in the index array and the figure array.
pub(crate) fn find_sheet<F: Arithmetic>(
    header: &[u32],
    index: &[u32],
    figures: &[F],
    sheet: usize,
) -> Result<(usize, usize), Refusal>
    ensures { SheetFound F.Arithmetic.figures (record { header = header.now; index = index.now; figures = figures.now }) sheet result }
{
    check_book(header, index, figures)?;
    let header = Header { words: header };
    header.check_there(sheet)?;
    Ok(header.place_of(sheet))
}

// The figure of one cell of a sheet.
pub fn cell<F: Arithmetic>(
    header: &[u32],
    index: &[u32],
    figures: &[F],
    sheet: usize,
    row: usize,
    column: usize,
) -> Result<F, Refusal>
    ensures { CellIs F.Arithmetic.figures (record { header = header.now; index = index.now; figures = figures.now }) sheet row column result }
{
    let place = find_sheet(header, index, figures, sheet)?;
    let order = Header { words: header }.order();
    if row >= order {
        return Err(Refusal::Misplaced(0));
    }
    if column >= order {
        return Err(Refusal::Misplaced(1));
    }
    Ok(sheet_at(order, index, figures, place).cell(row, column))
}

// Where the off-diagonal cells of a row of a sheet begin in the index array and the figure array, and one
// past their last.
pub fn row<F: Arithmetic>(
    header: &[u32],
    index: &[u32],
    figures: &[F],
    sheet: usize,
    row: usize,
) -> Result<(usize, usize), Refusal>
    ensures is { RowIs F.Arithmetic.figures (record { header = header.now; index = index.now; figures = figures.now }) sheet row result }
    ensures within { Between {S = F} (record { header = header.now; index = index.now; figures = figures.now }) result }
{
    let place = find_sheet(header, index, figures, sheet)?;
    let order = Header { words: header }.order();
    if row >= order {
        return Err(Refusal::Misplaced(0));
    }
    let (from, to) = sheet_at(order, index, figures, place).row(row);
    Ok((place.0 + from, place.0 + to))
}

// The columns of the off-diagonal cells of a row of a sheet.
pub fn columns<'a, F: Arithmetic>(
    header: &'a [u32],
    index: &'a [u32],
    figures: &'a [F],
    sheet: usize,
    row: usize,
) -> Result<&'a [u32], Refusal>
    ensures { RowPartIs F.Arithmetic.figures (record { header = header.now; index = index.now; figures = figures.now }) index.now sheet row result }
{
    let (from, to) = self::row(header, index, figures, sheet, row)?;
    Ok(&index[from..to])
}

// The figures of the off-diagonal cells of a row of a sheet, in the order of their columns.
// One function for both arrays would be these two lines under a third name.
pub fn figures<'a, F: Arithmetic>(
    header: &'a [u32],
    index: &'a [u32],
    figures: &'a [F],
    sheet: usize,
    row: usize,
) -> Result<&'a [F], Refusal>
    ensures { RowPartIs F.Arithmetic.figures (record { header = header.now; index = index.now; figures = figures.now }) figures.now sheet row result }
{
    let (from, to) = self::row(header, index, figures, sheet, row)?;
    Ok(&figures[from..to])
}
