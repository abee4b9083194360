ghost use Rattle.sheet.specs.Weighing.{Weighs};

use crate::Refusal;
use arithmetic::Arithmetic;

// The dot product: each figure of the first vector times its partner in the second, summed. Two empty
// vectors give zero.
pub fn weigh<F: Arithmetic>(first: &[F], second: &[F]) -> Result<F, Refusal>
    ensures { Weighs F.Arithmetic.figures first.now second.now result }
{
    if first.len() != second.len() {
        return Err(Refusal::Lengths(1));
    }
    let mut total = F::zero();
    for (x, y) in first.iter().zip(second) {
        total = total.add(x.multiply(*y));
    }
    Ok(total)
}
