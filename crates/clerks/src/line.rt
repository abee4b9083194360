ghost use Rattle.std.specs.Prelude.{◌≡◌, length, map};
ghost use Rattle.book.specs.Book.{order_of};
ghost use Rattle.clerks.specs.LineTotals.{LengthsChecked, SheetsChecked, LineStands, LineChecked, LineOutcome, BackDone, ForwardDone};

use arithmetic::Arithmetic;
use book::{Header, Refusal, check_book, column_working, row_working};
use sheet::weigh;

// Whether each of the vectors is as long as the order.
fn check_lengths<F: Arithmetic>(order: usize, vectors: &[&[F]]) -> Result<(), Refusal>
    ensures { LengthsChecked order (map (λ v. v.now) vectors.now) result }
{
    match vectors.iter().position(|vector| vector.len() != order) {
        Some(uneven) => Err(Refusal::Lengths(uneven)),
        None => Ok(()),
    }
}

// Whether every number of the line is below the number of sheets.
fn check_sheets(line: &[usize], sheets: usize) -> Result<(), Refusal>
    ensures { SheetsChecked line.now sheets result }
{
    match line.iter().find(|sheet| **sheet >= sheets) {
        Some(&missing) => Err(Refusal::Sheet(missing)),
        None => Ok(()),
    }
}

// Checks the book, that each of the vectors is as long as the order, and that the book has every sheet of the line.
fn check_line<F: Arithmetic>(
    header: &[u32],
    index: &[u32],
    figures: &[F],
    line: &[usize],
    vectors: &[&[F]],
) -> Result<(), Refusal>
    ensures { LineChecked F.Arithmetic.figures (record { header = header.now; index = index.now; figures = figures.now }) line.now (map (λ v. v.now) vectors.now) result }
{
    check_book(header, index, figures)?;
    let header = Header { words: header };
    check_lengths(header.order(), vectors)?;
    check_sheets(line, header.sheets())
}

// Column working along the line, from its last sheet to its first: each takes what the one after it gave.
fn carry_back<F: Arithmetic>(
    header: &[u32],
    index: &[u32],
    figures: &[F],
    line: &[usize],
    x: &[F],
    out: &mut [F],
    spare: &mut [F],
) -> Result<(), Refusal>
    requires stands { LineStands F.Arithmetic.figures (record { header = header.now; index = index.now; figures = figures.now }) line.now }
    requires long { (length x.now ≡ order_of (record { header = header.now; index = index.now; figures = figures.now })) × ((length out.old ≡ length x.now) × (length spare.old ≡ length x.now)) }
    ensures { BackDone F.Arithmetic.figures (record { header = header.now; index = index.now; figures = figures.now }) line.now x.now out.new result }
{
    out.copy_from_slice(x);
    for sheet in line.iter().rev().copied() {
        spare.copy_from_slice(out);
        column_working(header, index, figures, sheet, spare, out)?;
    }
    Ok(())
}

// Row working along the line, from its first sheet to its last: each takes what the one before it gave. The two walks
// stay apart: one walk with the order and the working as parameters would have to say, by the predicates of an iterator
// and a closure, what each turn leaves, and that is longer than the loop that they share.
fn carry_forward<F: Arithmetic>(
    header: &[u32],
    index: &[u32],
    figures: &[F],
    line: &[usize],
    y: &[F],
    out: &mut [F],
    spare: &mut [F],
) -> Result<(), Refusal>
    requires stands { LineStands F.Arithmetic.figures (record { header = header.now; index = index.now; figures = figures.now }) line.now }
    requires long { (length y.now ≡ order_of (record { header = header.now; index = index.now; figures = figures.now })) × ((length out.old ≡ length y.now) × (length spare.old ≡ length y.now)) }
    ensures { ForwardDone F.Arithmetic.figures (record { header = header.now; index = index.now; figures = figures.now }) line.now y.now out.new result }
{
    out.copy_from_slice(y);
    for sheet in line.iter().copied() {
        spare.copy_from_slice(out);
        row_working(header, index, figures, sheet, spare, out)?;
    }
    Ok(())
}

// Carries x back and y forward through a line of sheets, and answers two totals: y weighed against what came of x, and
// what came of y weighed against x. They are one.
pub fn line_totals<F: Arithmetic>(
    header: &[u32],
    index: &[u32],
    figures: &[F],
    line: &[usize],
    x: &[F],
    y: &[F],
    back: &mut [F],
    forward: &mut [F],
    spare: &mut [F],
) -> Result<(F, F), Refusal>
    ensures { LineOutcome F.Arithmetic.figures (record { header = header.now; index = index.now; figures = figures.now }) line.now x.now y.now (record { back = back.old; forward = forward.old; spare = spare.old }) result (record { back = back.new; forward = forward.new; spare = spare.new }) }
{
    check_line(header, index, figures, line, &[x, y, back, forward, spare])?;
    carry_back(header, index, figures, line, x, back, spare)?;
    carry_forward(header, index, figures, line, y, forward, spare)?;
    spare.copy_from_slice(x);
    let first = weigh(y, back)?;
    let second = weigh(forward, x)?;
    Ok((first, second))
}
