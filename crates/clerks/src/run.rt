ghost use Rattle.book.specs.Calls.{Outcome};
ghost use Rattle.clerks.specs.Asked.{asked, PlacesChecked, CarriedOut};

use crate::call::Call;
use arithmetic::Arithmetic;
use book::{Refusal, add, flip, load, multiply, strike, unit};

// Carries out one call.
pub fn carry_out<F: Arithmetic>(
    header: &mut [u32],
    index: &mut [u32],
    figures: &mut [F],
    call: Call<'_, F>,
) -> Result<usize, Refusal>
    ensures { Outcome F.Arithmetic.figures (record { header = header.old; index = index.old; figures = figures.old }) (asked call.entry) result (record { header = header.new; index = index.new; figures = figures.new }) }
{
    match call {
        Call::Unit => unit(header, index, figures),
        Call::Load {
            rows,
            columns,
            figures: entries,
        } => load(header, index, figures, rows, columns, entries),
        Call::Add { first, second } => add(header, index, figures, first, second),
        Call::Multiply { first, second } => multiply(header, index, figures, first, second),
        Call::Flip { sheet } => flip(header, index, figures, sheet),
        Call::Strike => strike(header, index, figures),
    }
}

// Whether there is one place for an answer for each call. Calls and answers are lent one by one, here and in `both`:
// that they are equally many is answered, and not asked for.
pub(crate) fn check_places<F: Arithmetic>(
    calls: &[Call<'_, F>],
    answers: &[Result<usize, Refusal>],
) -> Result<(), Refusal>
    ensures { PlacesChecked calls.now answers.now result }
{
    if answers.len() != calls.len() {
        return Err(Refusal::Lengths(1));
    }
    Ok(())
}

// Carries out a list of calls one after another, and writes down what each answered. There has to be one place for an
// answer for each call. The places go by their index: in a loop over `answers.iter_mut().zip(calls)`, which was tried,
// a proof has no name for what was written.
pub fn carry_out_all<F: Arithmetic>(
    header: &mut [u32],
    index: &mut [u32],
    figures: &mut [F],
    calls: &[Call<'_, F>],
    answers: &mut [Result<usize, Refusal>],
) -> Result<(), Refusal>
    ensures { CarriedOut F.Arithmetic.figures (record { header = header.old; index = index.old; figures = figures.old }) calls.now answers.old result (record { header = header.new; index = index.new; figures = figures.new }) answers.new }
{
    check_places(calls, answers)?;
    for (i, &call) in calls.iter().enumerate() {
        answers[i] = carry_out(header, index, figures, call);
    }
    Ok(())
}
