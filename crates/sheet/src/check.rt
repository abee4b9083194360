ghost use Rattle.std.specs.Prelude.{◌≡◌, ◌+◌, ◌^◌, ◌<◌, ◌≤◌, length, Decides, slice_index};
ghost use Rattle.arithmetic.specs.Semiring.{meanings};
ghost use Rattle.sheet.specs.Packed.{Rule, Head, Rising};
ghost use Rattle.sheet.specs.Checking.{Checks};

use crate::Refusal;
use arithmetic::Arithmetic;

// What is not checked yet is no `Sheet`: these functions take its order, words and figures one by one.

// Whether position p, the start of a row or the end of the last, keeps its rule.
fn head_keeps<F: Arithmetic>(order: usize, words: &[u32], figures: &[F], p: usize) -> bool
    requires { (p ≤ order) × ((order < length words.now) × (length figures.now ≡ length words.now)) }
    ensures { Decides result (Head F.Arithmetic.figures.ring order words.now (meanings F.Arithmetic.figures figures.now) p) }
{
    let word = words[p] as usize;
    if p == 0 && word != order + 1 {
        return false;
    }
    if p > 0 && (word < words[p - 1] as usize || word > words.len()) {
        return false;
    }
    p != order || (word == words.len() && figures[p].is_zero())
}

// Whether position p, a stored cell of this row, keeps its rule.
fn cell_keeps<F: Arithmetic>(
    order: usize,
    words: &[u32],
    figures: &[F],
    row: usize,
    p: usize,
) -> bool
    requires sizes { (order < p) × ((p < length words.now) × ((length figures.now ≡ length words.now) × (Rising order words.now))) }
    requires in_row { (row < order) × ((slice_index words.now row ≤ p) × (p < slice_index words.now (row + 1))) }
    ensures { Decides result (Rule F.Arithmetic.figures.ring order words.now (meanings F.Arithmetic.figures figures.now) p) }
{
    let word = words[p] as usize;
    if word >= order || word == row {
        return false;
    }
    if (words[row] as usize) < p && words[p - 1] as usize >= word {
        return false;
    }
    !figures[p].is_zero()
}

// One pass over a sheet: either it is sound, or the first position that breaks its rule is named, counted from the
// start of the arrays that the sheet stands in. It goes by positions, since one is told, and a rule reads the words
// before it.
pub fn check_sheet<F: Arithmetic>(
    order: usize,
    start: usize,
    words: &[u32],
    figures: &[F],
) -> Result<(), Refusal>
    requires { (order < length words.now) × ((length figures.now ≡ length words.now) × (start + length words.now < 2 ^ 64)) }
    ensures { Checks F.Arithmetic.figures.ring order start words.now (meanings F.Arithmetic.figures figures.now) result }
{
    for p in 0..order + 1 {
        if !head_keeps(order, words, figures, p) {
            return Err(Refusal::Position(start + p));
        }
    }
    for row in 0..order {
        // No cell is left where a row begins at the end.
        if words[row] as usize == words.len() {
            break;
        }
        for p in words[row] as usize..words[row + 1] as usize {
            if !cell_keeps(order, words, figures, row, p) {
                return Err(Refusal::Position(start + p));
            }
        }
    }
    Ok(())
}
