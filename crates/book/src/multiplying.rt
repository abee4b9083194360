ghost use Rattle.book.specs.Calls.{Outcome, Multiply};

use crate::adding::find_pair;
use crate::header::Header;
use crate::making::{check_room, enter_sheet};
use crate::places::pair_at;
use arithmetic::Arithmetic;
use product::{Meetings, product_length, write_product};
use sheet::Refusal;

// Adds the sheet of the product of two sheets, the first on the left. Answers its number. It is `add` with a scratch:
// one function for both would take the length and the writing as closures, and both of these borrow the scratch.
pub fn multiply<F: Arithmetic>(
    header: &mut [u32],
    index: &mut [u32],
    figures: &mut [F],
    first: usize,
    second: usize,
) -> Result<usize, Refusal>
    ensures { Outcome F.Arithmetic.figures (record { header = header.old; index = index.old; figures = figures.old }) (Multiply first second) result (record { header = header.new; index = index.new; figures = figures.new }) }
{
    let (one, two) = find_pair(header, index, figures, first, second)?;
    let words = Header { words: header };
    let order = words.order();
    let end = words.last_end();
    let (used, free) = index.split_at_mut(end);
    let (used_figures, free_figures) = figures.split_at_mut(end);
    let pair = pair_at(order, used, used_figures, one, two);
    let mut meetings = Meetings::new();
    let size = product_length(&pair, &mut meetings);
    check_room(size, free.len())?;
    write_product(&pair, free, free_figures, &mut meetings);
    Ok(enter_sheet(header, end + size))
}
