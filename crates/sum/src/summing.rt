ghost use Rattle.std.specs.Prelude.{◌≡◌, ◌≤◌, length};
ghost use Rattle.sheet.specs.Packed.{packed_length};
ghost use Rattle.sheet.specs.Writing.{SideBySide, Written};
ghost use Rattle.sum.specs.Merging.{pair_sum};

use crate::merge::Merge;
use arithmetic::Arithmetic;
use sheet::{Pair, places, start_row, write_entry};

// How long the packed form of the sum of two sheets is.
pub fn added_length<F: Arithmetic>(pair: &Pair<'_, F>) -> usize
    ensures { result ≡ packed_length F.Arithmetic.figures.ring pair.now.first.order (pair_sum pair.now) }
{
    let mut merge = Merge::new(pair);
    let mut length = pair.first.order + 1;
    for row in 0..pair.first.order {
        while let Some(cell) = merge.next_cell() {
            length += places(row, cell.column, cell.figure);
        }
    }
    length
}

// Writes the packed form of the sum of two sheets. Index and figures are lent side by side, as `writing` of `sheet`
// says. `product` goes through its cells in the same two ways, for the length and to write them. One trait for both was
// tried: its ghost member would have to name the figures of `F`, and the type of a ghost member cannot.
pub fn write_added<F: Arithmetic>(pair: &Pair<'_, F>, index: &mut [u32], figures: &mut [F])
    requires arrays { SideBySide index.old figures.old }
    requires room { packed_length F.Arithmetic.figures.ring pair.now.first.order (pair_sum pair.now) ≤ length index.old }
    ensures { Written F.Arithmetic.figures pair.now.first.order (pair_sum pair.now) index.old figures.old index.new figures.new }
{
    let order = pair.first.order;
    let mut merge = Merge::new(pair);
    let mut at = order + 1;
    start_row(index, figures, 0, at);
    for row in 0..order {
        while let Some(cell) = merge.next_cell() {
            at = write_entry(
                index,
                figures,
                at,
                row as u32,
                cell.column as u32,
                cell.figure,
            );
        }
        start_row(index, figures, row + 1, at);
    }
}
