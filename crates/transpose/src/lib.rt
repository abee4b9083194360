// The transpose of a sheet: columns are counted, counts become the starts of the new rows, and each cell goes to the
// next free place of its new row. Sizes are asked by clauses, since a `Sheet` may be larger than a book's; index and
// figures are lent side by side, as `writing` of `sheet` says.
#![tactic(auto)]

ghost use Rattle.std.specs.Prelude.{◌≡◌, ℕ, ◌+◌, ◌-◌, ◌<◌, ◌≤◌, length, slice_index, slice_set};
ghost use Rattle.arithmetic.specs.Semiring.{meanings};
ghost use Rattle.matrix.specs.Tables.{flipped};
ghost use Rattle.sheet.specs.Packed.{row_start, row_columns};
ghost use Rattle.sheet.specs.Sheets.{table_of};
ghost use Rattle.sheet.specs.Writing.{SideBySide, Written};
ghost use Rattle.transpose.specs.Flipping.{hits, HeadLaid};

use arithmetic::Arithmetic;
use sheet::{Sheet, start_row};

// How often each column stands in a sheet off the diagonal: in an array of fixed length, since no call allocates.
fn count_columns<F: Arithmetic>(sheet: &Sheet<'_, F>) -> [u32; 1024]
    requires small { (sheet.now.order ≤ 1024) × (length sheet.now.words.now ≤ 65536) }
    ensures { (c : ℕ) → c < 1024 → slice_index result c ≡ hits sheet.now.words.now c (sheet.now.order + 1) (length sheet.now.words.now - (sheet.now.order + 1)) }
{
    let mut counts = [0u32; 1024];
    for column in &sheet.words[sheet.order + 1..] {
        counts[*column as usize] += 1;
    }
    counts
}

// Writes the head of the flipped sheet: the starts of its rows and its diagonal. `next` goes in with the count of each
// column and comes out with the start of each new row.
fn write_head<F: Arithmetic>(
    sheet: &Sheet<'_, F>,
    index: &mut [u32],
    figures: &mut [F],
    next: &mut [u32; 1024],
)
    requires small { sheet.now.order ≤ 1024 }
    requires arrays { SideBySide index.old figures.old }
    requires room { length sheet.now.words.now ≤ length index.old }
    requires counts { (c : ℕ) → c < sheet.now.order → slice_index next.old c ≡ length (row_columns F.Arithmetic.figures.ring sheet.now.order (flipped (table_of sheet.now)) c) }
    ensures head { HeadLaid F.Arithmetic.figures sheet.now.order (flipped (table_of sheet.now)) index.old figures.old index.new figures.new }
    ensures starts { (c : ℕ) → c < sheet.now.order → slice_index next.new c ≡ row_start F.Arithmetic.figures.ring sheet.now.order (flipped (table_of sheet.now)) c }
{
    let mut at = sheet.order + 1;
    // Four arrays are read and written at one place: a zip of all would be longer.
    for row in 0..sheet.order {
        let size = next[row] as usize;
        index[row] = at as u32;
        figures[row] = sheet.figures[row];
        next[row] = at as u32;
        at += size;
    }
    start_row(index, figures, sheet.order, at);
}

// Writes a cell of the flipped sheet, whose row is `column`, to the next free place of that row.
fn move_cell<F: Arithmetic>(
    index: &mut [u32],
    figures: &mut [F],
    next: &mut [u32; 1024],
    column: usize,
    row: usize,
    figure: F,
)
    requires cell { (column < 1024) × (row < 1024) }
    requires arrays { SideBySide index.old figures.old }
    requires free { slice_index next.old column < length index.old }
    ensures word { index.new ≡ slice_set index.old (slice_index next.old column) row }
    ensures figure { figures.new ≡ slice_set figures.old (slice_index next.old column) figure }
    ensures next { next.new ≡ slice_set next.old column (slice_index next.old column + 1) }
{
    let at = next[column] as usize;
    index[at] = row as u32;
    figures[at] = figure;
    next[column] += 1;
}

// Writes the packed form of the flipped sheet: row by row, each cell goes to the next free place of its column, so that
// the new rows come out sorted.
pub fn write_flipped<F: Arithmetic>(sheet: &Sheet<'_, F>, index: &mut [u32], figures: &mut [F])
    requires small { (sheet.now.order ≤ 1024) × (length sheet.now.words.now ≤ 65536) }
    requires arrays { SideBySide index.old figures.old }
    requires room { length sheet.now.words.now ≤ length index.old }
    ensures { Written F.Arithmetic.figures sheet.now.order (flipped (table_of sheet.now)) index.old figures.old index.new figures.new }
{
    let mut next = count_columns(sheet);
    write_head(sheet, index, figures, &mut next);
    for row in 0..sheet.order {
        // No cell is left where a row begins at the end.
        if sheet.words[row] as usize == sheet.words.len() {
            break;
        }
        for (column, figure) in sheet.cells(row) {
            move_cell(index, figures, &mut next, *column as usize, row, *figure);
        }
    }
}
