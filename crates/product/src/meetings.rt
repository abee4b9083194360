ghost use Rattle.std.specs.Prelude.{◌≡◌, ℕ, ◌+◌, ◌-◌, ◌^◌, ◌<◌, ◌≤◌, length, slice_index};
ghost use Rattle.arithmetic.specs.Semiring.{meanings};
ghost use Rattle.product.specs.Meetings.{meeting, pushed, cleared, Idle, Linked, Marked, list_sum, Lists, NextTouched, NextCell, pair_product};

use arithmetic::Arithmetic;
use sheet::{Pair, RowCell};

// Two stored cells that meet: where they stand in their sheets, and the meeting before theirs in the list of its
// column. No meeting is 0, so `before` is 0 at a list's end: an option of it would take four bytes in place of two,
// here and in `head`.
#[derive(Clone, Copy)]
struct Meeting {
    before: u16,
    left: u16,
    right: u16,
}

// The pairs of stored cells that meet in one row of a product, a list for each column. Meetings are counted from 1, and
// 0 stands for none: head[c] is the last meeting of column c. A bit of `touched` is set for each column that has a
// list. The lists are taken away one by one, by their columns: those before `from` are gone. They lie in arrays of
// fixed length, since no call allocates. That no list is left (`Idle`) is a clause of the functions that work a row,
// and no invariant of the type: within a row there are lists.
#[derive(Drop)]
pub struct Meetings {
    head: [u16; 1024],
    touched: [u64; 16],
    meetings: [Meeting; 65536],
    count: usize,
    from: usize,
}

impl Meetings {
    pub fn new() -> Self
        ensures { (n : ℕ) → Idle n result }
    {
        Meetings {
            head: [0; 1024],
            touched: [0; 16],
            meetings: [Meeting {
                before: 0,
                left: 0,
                right: 0,
            }; 65536],
            count: 0,
            from: 0,
        }
    }

    // One meeting more, of the cells at `left` and `right`, in this column.
    fn push(&mut self, column: usize, left: usize, right: usize)
        requires { (column < 1024) × ((self.old.count < 65535) × ((left < 65536) × (right < 65536))) }
        ensures { self.new ≡ meeting column left right self.old }
    {
        let last = self.count + 1;
        self.meetings[last] = Meeting {
            before: self.head[column],
            left: left as u16,
            right: right as u16,
        };
        self.head[column] = last as u16;
        self.touched[column / 64] |= 1 << (column % 64);
        self.count = last;
    }

    // The cell at `left` of the first sheet meets every stored cell of row k of the second.
    fn push_row<F: Arithmetic>(&mut self, pair: &Pair<'_, F>, k: usize, left: usize)
        requires cell { (k < pair.now.second.order) × (left < length pair.now.first.words.now) }
        requires room { self.old.count + (slice_index pair.now.second.words.now (k + 1) - slice_index pair.now.second.words.now k) < 65535 }
        ensures { self.new ≡ pushed pair.now.second.words.now left (slice_index pair.now.second.words.now k) (slice_index pair.now.second.words.now (k + 1) - slice_index pair.now.second.words.now k) (meeting k left k self.old) }
    {
        let (from, to) = pair.second.row(k);
        self.push(k, left, k);
        // By place, which is what a meeting holds.
        for q in from..to {
            self.push(pair.second.words[q] as usize, left, q);
        }
    }

    // Lists the meetings of row i of the first sheet with the second.
    pub(crate) fn meet_row<F: Arithmetic>(&mut self, pair: &Pair<'_, F>, i: usize)
        requires row { i < pair.now.first.order }
        requires idle { Idle pair.now.first.order self.old }
        ensures whole { self.new.from ≡ 0 }
        ensures lists { Lists F.Arithmetic.figures.ring (meanings F.Arithmetic.figures pair.now.first.figures.now) (meanings F.Arithmetic.figures pair.now.second.figures.now) self.new pair.now.first.order (pair_product pair.now i) }
    {
        self.clear();
        self.push_row(pair, i, i);
        let (from, to) = pair.first.row(i);
        // By place, which is what a meeting holds.
        for p in from..to {
            self.push_row(pair, pair.first.words[p] as usize, p);
        }
    }

    // The next column from `from` on whose bit is set.
    fn next_touched(&self, from: usize) -> Option<usize>
        requires { (g : ℕ) → slice_index self.now.touched g < 2 ^ 64 }
        ensures { NextTouched self.now.touched from result }
    {
        // By number, from which the column is told.
        for group in from / 64..16 {
            let first = from.max(group * 64);
            let bits = self.touched[group] >> (first % 64);
            if bits != 0 {
                return Some(first + bits.trailing_zeros() as usize);
            }
        }
        None
    }

    // The sum of left × right over the meetings of a list, from `start` down.
    fn gather<F: Arithmetic>(&self, pair: &Pair<'_, F>, start: usize) -> F
        requires { (Linked (length pair.now.first.figures.now) (length pair.now.second.figures.now) self.now) × (start ≤ self.now.count) }
        ensures { F.Arithmetic.figures.meaning result ≡ list_sum F.Arithmetic.figures.ring (meanings F.Arithmetic.figures pair.now.first.figures.now) (meanings F.Arithmetic.figures pair.now.second.figures.now) self.now start }
    {
        // An iterator would first make an option of each `before`, and the sum would take as many lines.
        let mut total = F::zero();
        let mut m = start;
        while m != 0 {
            let meeting = self.meetings[m];
            let left_figure = pair.first.figures[meeting.left as usize];
            let right_figure = pair.second.figures[meeting.right as usize];
            total = total.add(left_figure.multiply(right_figure));
            m = meeting.before as usize;
        }
        total
    }

    // The next column that has a list, with the sum of its meetings. The list is taken away.
    pub(crate) fn next_cell<F: Arithmetic>(&mut self, pair: &Pair<'_, F>) -> Option<RowCell<F>>
        requires { (Linked (length pair.now.first.figures.now) (length pair.now.second.figures.now) self.old) × (Marked pair.now.first.order self.old) }
        ensures { NextCell F.Arithmetic.figures pair.now.first.order pair.now.first.figures.now pair.now.second.figures.now self.old result self.new }
    {
        let column = self.next_touched(self.from)?;
        if column >= pair.first.order {
            return None;
        }
        let start = self.head[column] as usize;
        self.head[column] = 0;
        self.from = column + 1;
        let figure = self.gather(pair, start);
        Some(RowCell { column, figure })
    }

    // No bit is set, no meeting counted and no list taken.
    fn clear(&mut self)
        ensures { self.new ≡ cleared self.old }
    {
        self.touched = [0; 16];
        self.count = 0;
        self.from = 0;
    }
}
