// The sheets of a book, at their places.
ghost use Rattle.std.specs.Prelude.{◌≡◌, ◌≤◌, length};
ghost use Rattle.sheet.specs.Writing.{part};
ghost use Rattle.book.specs.Checked.{Lying};

use arithmetic::Arithmetic;
use sheet::{Pair, Sheet};

// The sheet of this order that lies between two places of the index array and the figure array.
pub(crate) fn sheet_at<'a, F: Arithmetic>(
    order: usize,
    index: &'a [u32],
    figures: &'a [F],
    place: (usize, usize),
) -> Sheet<'a, F>
    requires { Lying F.Arithmetic.figures order index.now figures.now place }
    ensures order { result.order ≡ order }
    ensures words { result.words.now ≡ part index.now place.0 place.1 }
    ensures figures { result.figures.now ≡ part figures.now place.0 place.1 }
{
    let (from, to) = place;
    Sheet {
        order,
        words: &index[from..to],
        figures: &figures[from..to],
    }
}

// The sheets at two such places.
pub(crate) fn pair_at<'a, F: Arithmetic>(
    order: usize,
    index: &'a [u32],
    figures: &'a [F],
    first: (usize, usize),
    second: (usize, usize),
) -> Pair<'a, F>
    requires first { Lying F.Arithmetic.figures order index.now figures.now first }
    requires second { Lying F.Arithmetic.figures order index.now figures.now second }
    requires small { (order ≤ 1024) × (length index.now ≤ 65536) }
    ensures order { result.first.order ≡ order }
    ensures first_words { result.first.words.now ≡ part index.now first.0 first.1 }
    ensures first_figures { result.first.figures.now ≡ part figures.now first.0 first.1 }
    ensures second_words { result.second.words.now ≡ part index.now second.0 second.1 }
    ensures second_figures { result.second.figures.now ≡ part figures.now second.0 second.1 }
{
    Pair {
        first: sheet_at(order, index, figures, first),
        second: sheet_at(order, index, figures, second),
    }
}
