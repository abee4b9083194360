// What every sheet is written by, at the start of the slices that it is to lie in. Index and figures are lent side by
// side: a struct of two `&mut` would have to say in each contract that each is the same array still.
ghost use Rattle.std.specs.Prelude.{◌≡◌, ◌+◌, ◌<◌, ◌≤◌, not, ◌&&◌, length, if◌then◌else◌, ◌==◌, ◌≢◌};
ghost use Rattle.sheet.specs.Writing.{SideBySide, RowStarted, EntryWritten};

use arithmetic::Arithmetic;

// Writes where a row starts, or past the last row where the sheet ends, with a zero beside it.
pub fn start_row<F: Arithmetic>(index: &mut [u32], figures: &mut [F], row: usize, at: usize)
    requires { (row < length index.old) × ((length figures.old ≡ length index.old) × (at ≤ 65536)) }
    ensures { RowStarted F.Arithmetic.figures row at index.old figures.old index.new figures.new }
{
    index[row] = at as u32;
    figures[row] = F::zero();
}

// How many places the figure of a cell takes off the diagonal: one if it is stored, else none.
pub fn places<F: Arithmetic>(row: usize, column: usize, figure: F) -> usize
    ensures count { result ≡ (if not (column == row) && not (F.Arithmetic.figures.ring.is_zero (F.Arithmetic.figures.meaning figure)) then 1 else 0) }
    ensures small { result ≤ 1 }
{
    usize::from(column != row && !figure.is_zero())
}

// Writes the figure of one cell; if it is stored off the diagonal, it goes to `at`. Answers where the next stored cell
// goes.
pub fn write_entry<F: Arithmetic>(
    index: &mut [u32],
    figures: &mut [F],
    at: usize,
    row: u32,
    column: u32,
    figure: F,
) -> usize
    requires arrays { SideBySide index.old figures.old }
    requires row { row < length index.old }
    requires room { (column ≢ row) → (F.Arithmetic.figures.meaning figure ≢ F.Arithmetic.figures.ring.zero) → at < length index.old }
    ensures { EntryWritten F.Arithmetic.figures row column figure at index.old figures.old index.new figures.new result }
{
    if column == row {
        figures[row as usize] = figure;
        return at;
    }
    if figure.is_zero() {
        return at;
    }
    index[at] = column;
    figures[at] = figure;
    at + 1
}
