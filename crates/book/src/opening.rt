ghost use Rattle.book.specs.Checked.{OpenChecked};
ghost use Rattle.book.specs.Calls.{Outcome, Open};

use crate::check::check_layout;
use crate::limits::LARGEST_ORDER;
use arithmetic::Arithmetic;
use sheet::Refusal;

// Whether a book of this order can be made in the arrays, whatever they hold.
pub fn check_open<F: Arithmetic>(
    header: &[u32],
    index: &[u32],
    figures: &[F],
    order: usize,
) -> Result<(), Refusal>
    ensures { OpenChecked (record { header = header.now; index = index.now; figures = figures.now }) order result }
{
    check_layout(header, index, figures)?;
    if order == 0 || order > LARGEST_ORDER {
        return Err(Refusal::Order(order));
    }
    Ok(())
}

// Makes a book of this order without sheets, whatever the arrays held. Answers 0.
pub fn open<F: Arithmetic>(
    header: &mut [u32],
    index: &mut [u32],
    figures: &mut [F],
    order: usize,
) -> Result<usize, Refusal>
    ensures { Outcome F.Arithmetic.figures (record { header = header.old; index = index.old; figures = figures.old }) (Open order) result (record { header = header.new; index = index.new; figures = figures.new }) }
{
    check_open(header, index, figures, order)?;
    header.fill(0);
    // By place, as in `enter_sheet`: a `Header` is lent the words to be read.
    header[0] = order as u32;
    Ok(0)
}
