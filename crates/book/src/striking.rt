ghost use Rattle.book.specs.Calls.{Outcome, Strike};

use crate::check::check_book;
use crate::header::Header;
use arithmetic::Arithmetic;
use sheet::Refusal;

// Takes the last sheet away, and answers how many are left.
pub fn strike<F: Arithmetic>(
    header: &mut [u32],
    index: &mut [u32],
    figures: &mut [F],
) -> Result<usize, Refusal>
    ensures { Outcome F.Arithmetic.figures (record { header = header.old; index = index.old; figures = figures.old }) Strike result (record { header = header.new; index = index.new; figures = figures.new }) }
{
    check_book(header, index, figures)?;
    let sheets = Header { words: header }.sheets();
    if sheets == 0 {
        return Err(Refusal::Sheet(0));
    }
    // By place, as in `enter_sheet`: a `Header` is lent the words to be read.
    header[2 + sheets] = 0;
    header[1] = (sheets - 1) as u32;
    Ok(sheets - 1)
}
