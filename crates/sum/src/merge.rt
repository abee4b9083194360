// Two sheets gone through together, row by row, in the order of their columns.
ghost use Rattle.std.specs.Prelude.{◌≡◌, ◌<◌, if◌then◌else◌, Some, None, nat_lt};
ghost use Rattle.sum.specs.Merging.{Merging};

use arithmetic::Arithmetic;
use sheet::{Pair, RowCell, advanced};

// How far two sheets have been gone through: the columns of the row from `from` on are left, and `p` and `q` are where
// the first of them stands in the first sheet and in the second.
#[derive(Drop)]
pub(crate) struct Merge<'s, 'a, F: Arithmetic> {
    pair: &'s Pair<'a, F>,
    row: usize,
    from: usize,
    p: usize,
    q: usize,
    ghost merging: { Merging pair.now.first.order pair.now.first.words.now pair.now.second.words.now row from p q },
}

impl<'s, 'a, F: Arithmetic> Merge<'s, 'a, F> {
    ghost use Rattle.sum.specs.Merging.{next_column_of, pair_sum, NextCell};

    pub(crate) fn new(pair: &'s Pair<'a, F>) -> Self
        ensures pair { result.pair ≡ pair.entry }
        ensures row { result.row ≡ 0 }
        ensures from { result.from ≡ 0 }
    {
        Merge {
            pair,
            row: 0,
            from: 0,
            p: pair.first.words[0] as usize,
            q: pair.second.words[0] as usize,
        }
    }

    // The next column of the row that the first sheet, the second or the diagonal has; none at the row's end. It is the
    // least of three numbers, of which `order` stands for none: the least of options would take a match.
    fn next_column(&self) -> Option<usize>
        requires { self.now.row < self.now.pair.now.first.order }
        ensures { let column = next_column_of self.now.pair.now.first.words.now self.now.pair.now.second.words.now self.now.pair.now.first.order self.now.row self.now.from self.now.p self.now.q in result ≡ (if nat_lt column self.now.pair.now.first.order then Some column else None) }
    {
        let order = self.pair.first.order;
        let diagonal = if self.from <= self.row {
            self.row
        } else {
            order
        };
        let column = self.pair.first.column_at(self.row, self.p);
        let column = column
            .min(self.pair.second.column_at(self.row, self.q))
            .min(diagonal);
        (column < order).then_some(column)
    }

    // The next cell of the row that may be other than zero, with the sum of both figures there. None at the row's end:
    // then the next row begins.
    pub(crate) fn next_cell(&mut self) -> Option<RowCell<F>>
        requires { self.old.row < self.old.pair.now.first.order }
        ensures next { NextCell F.Arithmetic.figures self.old.pair.now.first.order (pair_sum self.old.pair.now) self.old.row self.old.from result self.new.row self.new.from }
        ensures pair { self.new.pair ≡ self.old.pair }
    {
        let Some(column) = self.next_column() else {
            self.row += 1;
            self.from = 0;
            return None;
        };
        let Pair { first, second } = self.pair;
        let x = first.spot(self.row, column, self.p);
        let y = second.spot(self.row, column, self.q);
        let figure = first.figure(x).add(second.figure(y));
        self.from = column + 1;
        self.p = advanced(self.p, x);
        self.q = advanced(self.q, y);
        Some(RowCell { column, figure })
    }
}
