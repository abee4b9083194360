ghost use Rattle.book.specs.Checked.{PairFound};
ghost use Rattle.book.specs.Calls.{Outcome, Add};

use crate::check::check_book;
use crate::header::Header;
use crate::making::{check_full, check_room, enter_sheet};
use crate::places::pair_at;
use arithmetic::Arithmetic;
use sheet::Refusal;
use sum::{added_length, write_added};

// Checks the book, that it has both sheets, the first named first, and that there is a number for a new one. Answers
// where each of the two begins and ends.
pub(crate) fn find_pair<F: Arithmetic>(
    header: &[u32],
    index: &[u32],
    figures: &[F],
    first: usize,
    second: usize,
) -> Result<((usize, usize), (usize, usize)), Refusal>
    ensures { PairFound F.Arithmetic.figures (record { header = header.now; index = index.now; figures = figures.now }) first second result }
{
    check_book(header, index, figures)?;
    let header = Header { words: header };
    header.check_there(first)?;
    header.check_there(second)?;
    check_full(header.sheets())?;
    Ok((header.place_of(first), header.place_of(second)))
}

// Adds the sheet of the sum of two sheets, the first on the left. Answers its number.
pub fn add<F: Arithmetic>(
    header: &mut [u32],
    index: &mut [u32],
    figures: &mut [F],
    first: usize,
    second: usize,
) -> Result<usize, Refusal>
    ensures { Outcome F.Arithmetic.figures (record { header = header.old; index = index.old; figures = figures.old }) (Add first second) result (record { header = header.new; index = index.new; figures = figures.new }) }
{
    let (one, two) = find_pair(header, index, figures, first, second)?;
    let words = Header { words: header };
    let order = words.order();
    let end = words.last_end();
    let (used, free) = index.split_at_mut(end);
    let (used_figures, free_figures) = figures.split_at_mut(end);
    let pair = pair_at(order, used, used_figures, one, two);
    let size = added_length(&pair);
    check_room(size, free.len())?;
    write_added(&pair, free, free_figures);
    Ok(enter_sheet(header, end + size))
}
