ghost use Rattle.std.specs.Prelude.{◌≡◌, ◌<◌, ◌≤◌, length};
ghost use Rattle.sheet.specs.Packed.{row_columns, packed_length};
ghost use Rattle.sheet.specs.Writing.{SideBySide, Written};
ghost use Rattle.product.specs.Meetings.{Idle, pair_product};

use crate::Meetings;
use arithmetic::Arithmetic;
use sheet::{Pair, places, start_row, write_entry};

// How many cells row i of the product of two sheets stores off the diagonal.
fn row_size<F: Arithmetic>(pair: &Pair<'_, F>, i: usize, meetings: &mut Meetings) -> usize
    requires row { i < pair.now.first.order }
    requires idle { Idle pair.now.first.order meetings.old }
    ensures size { result ≡ length (row_columns F.Arithmetic.figures.ring pair.now.first.order (pair_product pair.now) i) }
    ensures small { result ≤ pair.now.first.order }
    ensures idle { Idle pair.now.first.order meetings.new }
{
    meetings.meet_row(pair, i);
    let mut size = 0;
    while let Some(cell) = meetings.next_cell(pair) {
        size += places(i, cell.column, cell.figure);
    }
    size
}

// How long the packed form of the product of two sheets is. `sum` says why it and the sum do not go by one trait.
pub fn product_length<F: Arithmetic>(pair: &Pair<'_, F>, meetings: &mut Meetings) -> usize
    requires { Idle pair.now.first.order meetings.old }
    ensures size { result ≡ packed_length F.Arithmetic.figures.ring pair.now.first.order (pair_product pair.now) }
    ensures idle { Idle pair.now.first.order meetings.new }
{
    let mut length = pair.first.order + 1;
    for i in 0..pair.first.order {
        length += row_size(pair, i, meetings);
    }
    length
}

// Writes the packed form of the product of two sheets. Index and figures are lent side by side, as `writing` of `sheet`
// says.
pub fn write_product<F: Arithmetic>(
    pair: &Pair<'_, F>,
    index: &mut [u32],
    figures: &mut [F],
    meetings: &mut Meetings,
)
    requires arrays { SideBySide index.old figures.old }
    requires room { packed_length F.Arithmetic.figures.ring pair.now.first.order (pair_product pair.now) ≤ length index.old }
    requires idle { Idle pair.now.first.order meetings.old }
    ensures { Written F.Arithmetic.figures pair.now.first.order (pair_product pair.now) index.old figures.old index.new figures.new }
{
    let order = pair.first.order;
    let mut at = order + 1;
    start_row(index, figures, 0, at);
    for row in 0..order {
        meetings.meet_row(pair, row);
        while let Some(cell) = meetings.next_cell(pair) {
            at = write_entry(
                index,
                figures,
                at,
                row as u32,
                cell.column as u32,
                cell.figure,
            );
        }
        start_row(index, figures, row + 1, at);
    }
}
