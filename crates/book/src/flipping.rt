ghost use Rattle.book.specs.Calls.{Outcome, Flip};

use crate::header::Header;
use crate::lookup::find_sheet;
use crate::making::{check_full, check_room, enter_sheet};
use crate::places::sheet_at;
use arithmetic::Arithmetic;
use sheet::Refusal;
use transpose::write_flipped;

// Adds the sheet of the flipped sheet, which is as long as the sheet. Answers its number.
pub fn flip<F: Arithmetic>(
    header: &mut [u32],
    index: &mut [u32],
    figures: &mut [F],
    sheet: usize,
) -> Result<usize, Refusal>
    ensures { Outcome F.Arithmetic.figures (record { header = header.old; index = index.old; figures = figures.old }) (Flip sheet) result (record { header = header.new; index = index.new; figures = figures.new }) }
{
    let place = find_sheet(header, index, figures, sheet)?;
    let words = Header { words: header };
    check_full(words.sheets())?;
    let order = words.order();
    let end = words.last_end();
    let (used, free) = index.split_at_mut(end);
    let (used_figures, free_figures) = figures.split_at_mut(end);
    let sheet = sheet_at(order, used, used_figures, place);
    let size = sheet.words.len();
    check_room(size, free.len())?;
    write_flipped(&sheet, free, free_figures);
    Ok(enter_sheet(header, end + size))
}
