ghost use Rattle.book.specs.Lines.{list_lengths};
ghost use Rattle.book.specs.Checked.{LineChecked};
ghost use Rattle.book.specs.Calls.{Outcome, Load};

use crate::check::check_book;
use crate::header::Header;
use crate::making::{check_full, check_room, enter_sheet};
use arithmetic::Arithmetic;
use sheet::{Entries, Refusal, check_entries};

// Whether the three lists of entries are equally long. They come one by one: only `Entries` are known to be of one
// length.
fn check_lists<F: Arithmetic>(rows: &[u32], columns: &[u32], values: &[F]) -> Result<(), Refusal>
    ensures { LineChecked (list_lengths rows.now columns.now values.now) result }
{
    if columns.len() != rows.len() {
        return Err(Refusal::Lengths(1));
    }
    if values.len() != rows.len() {
        return Err(Refusal::Lengths(2));
    }
    Ok(())
}

// Adds the sheet of a list of entries, by their rows, columns and figures. Answers its number.
pub fn load<F: Arithmetic>(
    header: &mut [u32],
    index: &mut [u32],
    figures: &mut [F],
    rows: &[u32],
    columns: &[u32],
    values: &[F],
) -> Result<usize, Refusal>
    ensures { Outcome F.Arithmetic.figures (record { header = header.old; index = index.old; figures = figures.old }) (Load rows.now columns.now values.now) result (record { header = header.new; index = index.new; figures = figures.new }) }
{
    check_book(header, index, figures)?;
    check_lists(rows, columns, values)?;
    let words = Header { words: header };
    check_full(words.sheets())?;
    let order = words.order();
    check_entries(order, rows, columns)?;
    let entries = Entries {
        rows,
        columns,
        figures: values,
    };
    let size = entries.packed_length(order);
    let end = words.last_end();
    let (_, free) = index.split_at_mut(end);
    let (_, free_figures) = figures.split_at_mut(end);
    check_room(size, free.len())?;
    entries.write(order, free, free_figures);
    Ok(enter_sheet(header, end + size))
}
