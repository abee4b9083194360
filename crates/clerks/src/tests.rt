use crate::line_totals;
use arithmetic::Amount;
use book::{HEADER_WORDS, Refusal};

// A book of order 3: the unit sheet, and the sheet of (0, 0, 2) (0, 2, 5) (1, 0, 4) (2, 2, 1).
const HEADER: [u32; HEADER_WORDS] = [3, 2, 0, 4, 10, 0, 0, 0, 0, 0, 0, 0, 0, 0, 0, 0, 0, 0, 0];

const INDEX: [u32; 10] = [4, 4, 4, 4, 4, 5, 6, 6, 2, 0];

const FIGURES: [u32; 10] = [1, 1, 1, 0, 2, 0, 1, 0, 5, 4];

fn worked(line: &[usize], x: &[Amount], y: &[Amount]) -> Result<(Amount, Amount), Refusal> {
    let mut back = [Amount::new(0); 3];
    let mut forward = [Amount::new(0); 3];
    let mut spare = [Amount::new(0); 3];
    line_totals(
        &HEADER,
        &INDEX,
        &FIGURES.map(Amount::new),
        line,
        x,
        y,
        &mut back,
        &mut forward,
        &mut spare,
    )
}

// Both totals of a line, with x = (1, 2, 3) and y = (1, 1, 2).
fn totals(line: &[usize]) -> Option<(u32, u32)> {
    let x = [1, 2, 3].map(Amount::new);
    let y = [1, 1, 2].map(Amount::new);
    worked(line, &x, &y)
        .ok()
        .map(|(first, second)| (first.value(), second.value()))
}

// The number and the place that a line is sent back with, where x and y are as long as given.
fn refused(line: &[usize], x: &[Amount], y: &[Amount]) -> Option<(u8, usize)> {
    worked(line, x, y)
        .err()
        .map(|why| (why.number(), why.place()))
}

#[test]
fn one_total(rt: HostRuntime) {
    assert_eq!(rt; totals(&[1]), Some((27, 27)));
    assert_eq!(rt; totals(&[0, 1, 0]), Some((27, 27)));
    assert_eq!(rt; totals(&[1, 1]), Some((123, 123)));
    assert_eq!(rt; totals(&[]), Some((9, 9)));
}

#[test]
fn refusals(rt: HostRuntime) {
    let two = [Amount::new(1); 2];
    let three = [Amount::new(1); 3];
    assert_eq!(rt; refused(&[1, 2, 3], &three, &three), Some((6, 2)));
    assert_eq!(rt; refused(&[2], &two, &three), Some((5, 0)));
    assert_eq!(rt; refused(&[2], &three, &two), Some((5, 1)));
    assert_eq!(rt; refused(&[1], &three, &three), None);
}
