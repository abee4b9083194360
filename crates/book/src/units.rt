ghost use Rattle.book.specs.Calls.{Outcome, Unit'};

use crate::check::check_book;
use crate::header::Header;
use crate::making::{check_full, check_room, enter_sheet};
use arithmetic::Arithmetic;
use sheet::{Refusal, write_unit};

// Adds the sheet of the unit table: unit on the diagonal, zero elsewhere. Answers its number.
pub fn unit<F: Arithmetic>(
    header: &mut [u32],
    index: &mut [u32],
    figures: &mut [F],
) -> Result<usize, Refusal>
    ensures { Outcome F.Arithmetic.figures (record { header = header.old; index = index.old; figures = figures.old }) Unit' result (record { header = header.new; index = index.new; figures = figures.new }) }
{
    check_book(header, index, figures)?;
    let words = Header { words: header };
    check_full(words.sheets())?;
    let order = words.order();
    let end = words.last_end();
    let (_, free) = index.split_at_mut(end);
    let (_, free_figures) = figures.split_at_mut(end);
    check_room(order + 1, free.len())?;
    write_unit(order, free, free_figures);
    Ok(enter_sheet(header, end + (order + 1)))
}
