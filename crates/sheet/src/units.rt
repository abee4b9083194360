ghost use Rattle.std.specs.Prelude.{◌≡◌, ◌+◌, ◌≤◌, length};
ghost use Rattle.matrix.specs.Tables.{unit_table};
ghost use Rattle.sheet.specs.Writing.{SideBySide, Written};

use crate::writing::start_row;
use arithmetic::Arithmetic;

// Writes the packed form of the unit table: it is order + 1 long.
pub fn write_unit<F: Arithmetic>(order: usize, index: &mut [u32], figures: &mut [F])
    requires arrays { SideBySide index.old figures.old }
    requires room { order + 1 ≤ length index.old }
    ensures { Written F.Arithmetic.figures order (unit_table F.Arithmetic.figures.ring) index.old figures.old index.new figures.new }
{
    start_row(index, figures, 0, order + 1);
    // Row by row: `fill` wants a `clone` that cannot fail, which the trait does not say of its figures.
    for row in 0..order {
        figures[row] = F::unit();
        start_row(index, figures, row + 1, order + 1);
    }
}
