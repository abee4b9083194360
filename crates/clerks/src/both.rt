ghost use Rattle.clerks.specs.Working.{DeskChecked, Worked, BothOutcome};

use crate::call::Call;
use crate::line::line_totals;
use crate::run::{carry_out_all, check_places};
use arithmetic::Arithmetic;
use book::{Refusal, check_open, open};

// Where the work on two books stopped: at the first book or the second, of which neither was touched, or at the line
// of sheets, after both were worked.
#[derive(Clone, Copy, Debug, PartialEq, Eq)]
pub enum Halt {
    First(Refusal),
    Second(Refusal),
    Line(Refusal),
}

// Whether there is one place for an answer for each call, and a book can be opened in the arrays.
fn check_desk<F: Arithmetic>(
    order: usize,
    header: &[u32],
    index: &[u32],
    figures: &[F],
    calls: &[Call<'_, F>],
    answers: &[Result<usize, Refusal>],
) -> Result<(), Refusal>
    ensures { DeskChecked F.Arithmetic.figures order calls.now (record { book = record { header = header.now; index = index.now; figures = figures.now }; answers = answers.now }) result }
{
    check_places(calls, answers)?;
    check_open(header, index, figures, order)
}

// Opens a book and carries out a list of calls on it, and writes down what each answered.
pub fn work_book<F: Arithmetic>(
    order: usize,
    header: &mut [u32],
    index: &mut [u32],
    figures: &mut [F],
    calls: &[Call<'_, F>],
    answers: &mut [Result<usize, Refusal>],
) -> Result<(), Refusal>
    ensures { Worked F.Arithmetic.figures order calls.now (record { book = record { header = header.old; index = index.old; figures = figures.old }; answers = answers.old }) result (record { book = record { header = header.new; index = index.new; figures = figures.new }; answers = answers.new }) }
{
    check_desk(order, header, index, figures, calls, answers)?;
    open(header, index, figures, order)?;
    carry_out_all(header, index, figures, calls, answers)
}

// Opens two books of one order, carries out a list of calls on each, and carries x back and y forward through a line of
// sheets of the first. Answers both totals of the line.
pub fn work_both<F: Arithmetic>(
    order: usize,
    header: &mut [u32],
    index: &mut [u32],
    figures: &mut [F],
    calls: &[Call<'_, F>],
    answers: &mut [Result<usize, Refusal>],
    header2: &mut [u32],
    index2: &mut [u32],
    figures2: &mut [F],
    calls2: &[Call<'_, F>],
    answers2: &mut [Result<usize, Refusal>],
    line: &[usize],
    x: &[F],
    y: &[F],
    back: &mut [F],
    forward: &mut [F],
    spare: &mut [F],
) -> Result<(F, F), Halt>
    ensures { BothOutcome F.Arithmetic.figures order calls.now calls2.now line.now x.now y.now (record { first = record { book = record { header = header.old; index = index.old; figures = figures.old }; answers = answers.old }; second = record { book = record { header = header2.old; index = index2.old; figures = figures2.old }; answers = answers2.old }; vectors = record { back = back.old; forward = forward.old; spare = spare.old } }) result (record { first = record { book = record { header = header.new; index = index.new; figures = figures.new }; answers = answers.new }; second = record { book = record { header = header2.new; index = index2.new; figures = figures2.new }; answers = answers2.new }; vectors = record { back = back.new; forward = forward.new; spare = spare.new } }) }
{
    check_desk(order, header, index, figures, calls, answers).map_err(Halt::First)?;
    check_desk(order, header2, index2, figures2, calls2, answers2).map_err(Halt::Second)?;
    work_book(order, header, index, figures, calls, answers).map_err(Halt::First)?;
    work_book(order, header2, index2, figures2, calls2, answers2).map_err(Halt::Second)?;
    line_totals(header, index, figures, line, x, y, back, forward, spare).map_err(Halt::Line)
}
