// A place that goes along a row of a sheet while the columns count up.
ghost use Rattle.std.specs.Prelude.{◌≡◌, ◌+◌, ◌<◌, ◌≤◌, length, if◌then◌else◌, nat_eq, slice_index};
ghost use Rattle.sheet.specs.Cursors.{spot_of, column_of};

use crate::Sheet;
use arithmetic::Arithmetic;

// Where the cell of row i and column k stands, or the place `order`, whose figure is zero, if it is not stored, so that
// no case is needed for it. The place p is the first of the row whose column is not below k. This asks of the words
// alone, and serves the words of a sheet that is not sound too.
pub fn spot(order: usize, words: &[u32], i: usize, k: usize, p: usize) -> usize
    requires { (i < order) × ((order < length words.now) × (slice_index words.now (i + 1) ≤ length words.now)) }
    ensures { result ≡ spot_of words.now order i k p }
{
    if k == i {
        i
    } else if p < words[i + 1] as usize && words[p] as usize == k {
        p
    } else {
        order
    }
}

// The place after p if the cell stood at p, else p.
pub fn advanced(p: usize, spot: usize) -> usize
    requires { p ≤ 65536 }
    ensures { result ≡ (if nat_eq spot p then p + 1 else p) }
{
    if spot == p { p + 1 } else { p }
}

// The column at place p of row i. Past the row's end it is `order`, which is above every column: the least of several
// is then their `min`, which it would not be of options.
pub fn column_at(order: usize, words: &[u32], i: usize, p: usize) -> usize
    requires { (i < order) × ((order < length words.now) × (slice_index words.now (i + 1) ≤ length words.now)) }
    ensures { result ≡ column_of words.now order i p }
{
    if p < words[i + 1] as usize {
        words[p] as usize
    } else {
        order
    }
}

// The same of a sheet, of which nothing has to be asked: its rows lie within it.
impl<F: Arithmetic> Sheet<'_, F> {
    pub fn spot(&self, i: usize, k: usize, p: usize) -> usize
        requires { i < self.now.order }
        ensures { result ≡ spot_of self.now.words.now self.now.order i k p }
    {
        spot(self.order, self.words, i, k, p)
    }

    pub fn column_at(&self, i: usize, p: usize) -> usize
        requires { i < self.now.order }
        ensures { result ≡ column_of self.now.words.now self.now.order i p }
    {
        column_at(self.order, self.words, i, p)
    }
}
