// Two clerks with a book each: what their sheets can never be brought away from, whatever calls they make. The arrays
// of a book are lent one by one, as every call takes them: a struct of them, which was tried, needs a lifetime for
// each, and in each function a clause for each that it is the same array still.
#![tactic(auto)]

ghost use Rattle.clerks.specs.Pedigree.{TurnsBack};
ghost use Rattle.clerks.specs.Clerks.{TwoClerks};
ghost use Rattle.clerks.specs.Carrying.{OneTotal};
ghost use Rattle.clerks.specs.Counting.{BagsByCounting, ChainsTold};

use arithmetic::Arithmetic;

mod both;
mod call;
mod line;
mod run;
#[cfg(test)]
mod tests;

pub use both::{Halt, work_book, work_both};
pub use call::Call;
pub use line::line_totals;
pub use run::{carry_out, carry_out_all};

// Two books of one order, each worked by any list of calls: both stay sound, and sheets of equal pedigree are equal.
pub fn clerks_agree<F: Arithmetic>()
    ensures agree { TwoClerks F.Arithmetic.figures }
    ensures turned { TurnsBack F.Arithmetic.figures.F }
{}

// Two vectors carried through a line of sheets from either end come to one total.
pub fn totals_agree<F: Arithmetic>()
    ensures { OneTotal F.Arithmetic.figures }
{}

// Two pedigrees hold every chain equally often: said by a pairing of their chains, it comes to the same as counting
// them wherever figures, and so chains, can be told apart.
pub fn bags_by_counting<F: Arithmetic>()
    ensures counts { BagsByCounting F.Arithmetic.figures }
    ensures told { ChainsTold F.Arithmetic.figures }
{}
