// A sound sheet times a vector, and a vector times a sound sheet. Only stored cells are read. That a vector is as long
// as the order is said of two values, so it is a clause, and no type of one of them holds it.
#![tactic(auto)]

ghost use Rattle.std.specs.Prelude.{◌≡◌, ℕ, ◌<◌, map, length};
ghost use Rattle.std.specs.List.{range_with_len};
ghost use Rattle.arithmetic.specs.Semiring.{meanings};
ghost use Rattle.matrix.specs.Vectors.{column_worked, row_worked, figure_at};
ghost use Rattle.sheet.specs.Sheets.{table_of};
ghost use Rattle.workings.specs.Scattering.{off_cell, Grew};

use arithmetic::Arithmetic;
use sheet::Sheet;

// One figure of the sheet times x: the sum of cell(i, j) × x(j) over the columns j.
fn work_column<F: Arithmetic>(sheet: &Sheet<'_, F>, x: &[F], i: usize) -> F
    requires { (length x.now ≡ sheet.now.order) × (i < sheet.now.order) }
    ensures { F.Arithmetic.figures.meaning result ≡ column_worked F.Arithmetic.figures.ring sheet.now.order (table_of sheet.now) (figure_at F.Arithmetic.figures.ring (meanings F.Arithmetic.figures x.now)) i }
{
    let mut total = sheet.figures[i].multiply(x[i]);
    for (column, figure) in sheet.cells(i) {
        total = total.add(figure.multiply(x[*column as usize]));
    }
    total
}

// The sheet times x: out(i) becomes the sum of cell(i, j) × x(j) over the columns j.
pub fn work_columns<F: Arithmetic>(sheet: &Sheet<'_, F>, x: &[F], out: &mut [F])
    requires { (length x.now ≡ sheet.now.order) × (length out.old ≡ sheet.now.order) }
    ensures { meanings F.Arithmetic.figures out.new ≡ map (column_worked F.Arithmetic.figures.ring sheet.now.order (table_of sheet.now) (figure_at F.Arithmetic.figures.ring (meanings F.Arithmetic.figures x.now))) (range_with_len 0 sheet.now.order) }
{
    for (i, figure) in out.iter_mut().enumerate() {
        *figure = work_column(sheet, x, i);
    }
}

// out(j) becomes y(j) × cell(j, j).
fn work_diagonal<F: Arithmetic>(sheet: &Sheet<'_, F>, y: &[F], out: &mut [F])
    requires { (length y.now ≡ sheet.now.order) × (length out.old ≡ sheet.now.order) }
    ensures { (j : ℕ) → j < sheet.now.order → figure_at F.Arithmetic.figures.ring (meanings F.Arithmetic.figures out.new) j ≡ F.Arithmetic.figures.ring.mul (figure_at F.Arithmetic.figures.ring (meanings F.Arithmetic.figures y.now) j) (figure_at F.Arithmetic.figures.ring (meanings F.Arithmetic.figures sheet.now.figures.now) j) }
{
    // By place: in a loop over a zip with `iter_mut`, which was tried, a proof has no name for what was written.
    for (j, figure) in out.iter_mut().enumerate() {
        *figure = y[j].multiply(sheet.figures[j]);
    }
}

// out(j) grows by factor × cell(i, j), for each column j but the diagonal.
fn scatter_row<F: Arithmetic>(sheet: &Sheet<'_, F>, i: usize, factor: F, out: &mut [F])
    requires { (length out.old ≡ sheet.now.order) × (i < sheet.now.order) }
    ensures { Grew F.Arithmetic.figures.ring sheet.now.order (λ j. F.Arithmetic.figures.ring.mul (F.Arithmetic.figures.meaning factor) (off_cell F.Arithmetic.figures.ring sheet.now.words.now (meanings F.Arithmetic.figures sheet.now.figures.now) i j)) (meanings F.Arithmetic.figures out.old) (meanings F.Arithmetic.figures out.new) }
{
    for (column, figure) in sheet.cells(i) {
        let grown = &mut out[*column as usize];
        *grown = grown.add(factor.multiply(*figure));
    }
}

// y times the sheet: out(j) becomes the sum of y(i) × cell(i, j) over the rows i. The diagonal is written
// first, and then the other cells are added row by row.
// This is no column working of the flipped sheet: it keeps the order of its factors, and reads the sheet as it is.
pub fn work_rows<F: Arithmetic>(sheet: &Sheet<'_, F>, y: &[F], out: &mut [F])
    requires { (length y.now ≡ sheet.now.order) × (length out.old ≡ sheet.now.order) }
    ensures { meanings F.Arithmetic.figures out.new ≡ map (row_worked F.Arithmetic.figures.ring sheet.now.order (figure_at F.Arithmetic.figures.ring (meanings F.Arithmetic.figures y.now)) (table_of sheet.now)) (range_with_len 0 sheet.now.order) }
{
    work_diagonal(sheet, y, out);
    for (i, factor) in y.iter().enumerate() {
        scatter_row(sheet, i, *factor, out);
    }
}
