ghost use Rattle.std.specs.Prelude.{◌≡◌, ℕ, ◌<◌, ◌≤◌, length, Decides, slice_index};
ghost use Rattle.sheet.specs.Packed.{packed_length};
ghost use Rattle.sheet.specs.Writing.{SideBySide, Written};
ghost use Rattle.sheet.specs.Loading.{entries, loaded, Placed, EntriesChecked};

use crate::Refusal;
use crate::writing::{places, start_row, write_entry};
use arithmetic::Arithmetic;

// Whether entry k lies in a table of this order, and after the entry before it.
fn is_placed(order: usize, rows: &[u32], columns: &[u32], k: usize) -> bool
    requires { (k < length rows.now) × (length columns.now ≡ length rows.now) }
    ensures { Decides result (Placed order rows.now columns.now k) }
{
    if rows[k] as usize >= order || columns[k] as usize >= order {
        return false;
    }
    k == 0 || (rows[k - 1], columns[k - 1]) < (rows[k], columns[k])
}

// Whether every entry is placed, or which is the first that is not. They are gone through by their places, since an
// entry is held against the one before it. It asks nothing of the figures, so it takes two lists and no `Entries`.
pub fn check_entries(order: usize, rows: &[u32], columns: &[u32]) -> Result<(), Refusal>
    requires { length columns.now ≡ length rows.now }
    ensures { EntriesChecked order rows.now columns.now result }
{
    for k in 0..rows.len() {
        if !is_placed(order, rows, columns, k) {
            return Err(Refusal::Misplaced(k));
        }
    }
    Ok(())
}

// The entries of a table, as three lists of one length, as `load` is lent them: their rows, their columns and their
// figures. Whether they are placed depends on an order, which a list has not, so it is asked where it is needed.
#[derive(Drop)]
pub struct Entries<'a, F> {
    pub rows: &'a [u32],
    pub columns: &'a [u32],
    pub figures: &'a [F],
    pub ghost a_column_each: { length columns.now ≡ length rows.now },
    pub ghost a_figure_each: { length figures.now ≡ length rows.now },
}

impl<F: Arithmetic> Entries<'_, F> {
    // How long the packed form of the table is.
    pub fn packed_length(&self, order: usize) -> usize
        requires order { (1 ≤ order) × (order ≤ 1024) }
        requires placed { (k : ℕ) → k < length self.now.rows.now → Placed order self.now.rows.now self.now.columns.now k }
        ensures { result ≡ packed_length F.Arithmetic.figures.ring order (loaded F.Arithmetic.figures.ring (entries F.Arithmetic.figures self.now.rows.now self.now.columns.now self.now.figures.now)) }
    {
        let mut length = order + 1;
        // The three lists are read at one place: an iterator over all of them would be a zip of a zip.
        for k in 0..self.rows.len() {
            length += places(
                self.rows[k] as usize,
                self.columns[k] as usize,
                self.figures[k],
            );
        }
        length
    }

    // Whether entry k is there and lies in this row.
    fn is_in_row(&self, k: usize, row: usize) -> bool
        ensures { Decides result ((k < length self.now.rows.now) × (slice_index self.now.rows.now k ≡ row)) }
    {
        k < self.rows.len() && self.rows[k] as usize == row
    }

    // Writes the packed form of the table.
    pub fn write(&self, order: usize, index: &mut [u32], figures: &mut [F])
        requires order { (1 ≤ order) × (order ≤ 1024) }
        requires arrays { SideBySide index.old figures.old }
        requires room { packed_length F.Arithmetic.figures.ring order (loaded F.Arithmetic.figures.ring (entries F.Arithmetic.figures self.now.rows.now self.now.columns.now self.now.figures.now)) ≤ length index.old }
        requires placed { (k : ℕ) → k < length self.now.rows.now → Placed order self.now.rows.now self.now.columns.now k }
        ensures { Written F.Arithmetic.figures order (loaded F.Arithmetic.figures.ring (entries F.Arithmetic.figures self.now.rows.now self.now.columns.now self.now.figures.now)) index.old figures.old index.new figures.new }
    {
        let mut at = order + 1;
        start_row(index, figures, 0, at);
        // The entries come row by row: k goes through them once, while the rows go by. An iterator would be over the
        // three lists zipped, and have to look one entry ahead.
        let mut k = 0;
        for row in 0..order {
            while self.is_in_row(k, row) {
                at = write_entry(
                    index,
                    figures,
                    at,
                    self.rows[k],
                    self.columns[k],
                    self.figures[k],
                );
                k += 1;
            }
            start_row(index, figures, row + 1, at);
        }
    }
}
