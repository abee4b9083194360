// Sound sheets, in the slices of two arrays where they lie.
ghost use Rattle.std.specs.Prelude.{◌≡◌, ◌+◌, ◌^◌, ◌<◌, ◌≤◌, length, slice_index, slice_index_or};
ghost use Rattle.std.specs.Iterator.Adapters.{zip_first, zip_second};
ghost use Rattle.std.specs.Slice.Iter.{iter_rest};
ghost use Rattle.arithmetic.specs.Semiring.{meanings};
ghost use Rattle.sheet.specs.Packed.{Sound};
ghost use Rattle.sheet.specs.Writing.{part};

use arithmetic::Arithmetic;
use std::iter::Zip;
use std::slice::Iter;

// A sheet of an order that keeps every rule, by its index words and its figures, the two arrays of the packed form.
#[derive(Drop)]
pub struct Sheet<'a, F: Arithmetic> {
    pub order: usize,
    pub words: &'a [u32],
    pub figures: &'a [F],
    pub ghost sound: { ∥ Sound F.Arithmetic.figures.ring order words.now (meanings F.Arithmetic.figures figures.now) ∥₁ },
    pub ghost paired: { length figures.now ≡ length words.now },
}

// Two sheets of one order, no larger than those of a book.
#[derive(Drop)]
pub struct Pair<'a, F: Arithmetic> {
    pub first: Sheet<'a, F>,
    pub second: Sheet<'a, F>,
    pub ghost one_order: { second.order ≡ first.order },
    pub ghost small_order: { first.order ≤ 1024 },
    pub ghost small_first: { length first.words.now ≤ 65536 },
    pub ghost small_second: { length second.words.now ≤ 65536 },
}

// A cell of a row: its column and its figure.
#[derive(Clone, Copy)]
pub struct RowCell<F> {
    pub column: usize,
    pub figure: F,
}

impl<F: Arithmetic> Sheet<'_, F> {
    ghost use Rattle.sheet.specs.Sheets.{table_of};

    // The figure at a place.
    pub fn figure(&self, place: usize) -> F
        requires { place < length self.now.words.now }
        ensures { F.Arithmetic.figures.meaning result ≡ slice_index_or (meanings F.Arithmetic.figures self.now.figures.now) place F.Arithmetic.figures.ring.zero }
    {
        self.figures[place]
    }

    // Where the stored cells of row i begin off the diagonal, and one past their last.
    pub fn row(&self, i: usize) -> (usize, usize)
        requires { i < self.now.order }
        ensures from { result.0 ≡ slice_index self.now.words.now i }
        ensures to { result.1 ≡ slice_index self.now.words.now (i + 1) }
        ensures past { self.now.order < result.0 }
        ensures up { result.0 ≤ result.1 }
        ensures within { result.1 ≤ length self.now.words.now }
        ensures fits { result.1 < 2 ^ 32 }
    {
        (self.words[i] as usize, self.words[i + 1] as usize)
    }

    // The stored cells of row i off the diagonal: the columns, and beside each its figure.
    pub fn cells(&self, i: usize) -> Zip<Iter<'_, u32>, Iter<'_, F>>
        requires { i < self.now.order }
        ensures columns { iter_rest (zip_first result) ≡ part self.now.words.now (slice_index self.now.words.now i) (slice_index self.now.words.now (i + 1)) }
        ensures figures { iter_rest (zip_second result) ≡ part self.now.figures.now (slice_index self.now.words.now i) (slice_index self.now.words.now (i + 1)) }
    {
        let (from, to) = self.row(i);
        self.words[from..to].iter().zip(&self.figures[from..to])
    }

    // One cell: the figure on the diagonal, or the one that stands beside the column in its row, or zero where the row
    // does not store the column.
    pub fn cell(&self, row: usize, column: usize) -> F
        requires { (row < self.now.order) × (column < self.now.order) }
        ensures { F.Arithmetic.figures.meaning result ≡ table_of self.now row column }
    {
        if row == column {
            return self.figures[row];
        }
        let (from, to) = self.row(row);
        let columns = &self.words[from..to];
        match columns.binary_search(&(column as u32)) {
            Ok(place) => self.figures[from + place],
            Err(_) => F::zero(),
        }
    }
}
