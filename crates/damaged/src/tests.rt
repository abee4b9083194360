use arithmetic::Amount;
use book::{HEADER_WORDS, Refusal, cell};

// A sound book of order 3 and capacity 12: the unit sheet from 0 to 4, and from 4 to 10 the sheet of
// (0, 0, 2) (0, 2, 5) (1, 0, 4) (2, 2, 1). What lies past 10 has no rule.
const HEADER: [u32; HEADER_WORDS] = [3, 2, 0, 4, 10, 0, 0, 0, 0, 0, 0, 0, 0, 0, 0, 0, 0, 0, 0];

const INDEX: [u32; 12] = [4, 4, 4, 4, 4, 5, 6, 6, 2, 0, 77, 78];

const FIGURES: [u32; 12] = [1, 1, 1, 0, 2, 0, 1, 0, 5, 4, 79, 0];

// The number and the place that a book is sent back with; none where it is sound.
fn judged(header: &[u32], index: &[u32], figures: &[Amount]) -> Option<(u8, usize)> {
    let found: Result<Amount, Refusal> = cell(header, index, figures, 1, 0, 2);
    found.err().map(|why| (why.number(), why.place()))
}

// An array of the book with one item changed.
fn changed<const N: usize>(mut items: [u32; N], place: usize, value: u32) -> [u32; N] {
    if let Some(item) = items.get_mut(place) {
        *item = value;
    }
    items
}

#[test]
fn headers(rt: HostRuntime) {
    let sound = FIGURES.map(Amount::new);
    let cases = [
        (0, 3, None),
        (0, 0, Some((3, 0))),
        (0, 1025, Some((3, 0))),
        (0, 4, Some((3, 3))),
        (1, 17, Some((3, 1))),
        (1, 4_294_967_295, Some((3, 1))),
        (1, 1, Some((3, 4))),
        (1, 3, Some((3, 5))),
        (2, 1, Some((3, 2))),
        (3, 3, Some((3, 3))),
        (4, 7, Some((3, 4))),
        (4, 13, Some((3, 4))),
        (4, 4_294_967_295, Some((3, 4))),
        (5, 1, Some((3, 5))),
        (18, 1, Some((3, 18))),
    ];
    for (word, value, expected) in cases {
        let header = changed(HEADER, word, value);
        assert_eq!(rt; judged(&header, &INDEX, &sound), expected);
    }
    assert_eq!(rt;
        judged(&[4_294_967_295; HEADER_WORDS], &INDEX, &sound),
        Some((3, 0))
    );
}

#[test]
fn sheets(rt: HostRuntime) {
    let sound = FIGURES.map(Amount::new);
    let words = [
        (0, 3, Some((4, 0))),
        (4, 5, Some((4, 4))),
        (5, 3, Some((4, 5))),
        (5, 7, Some((4, 5))),
        (6, 4, Some((4, 6))),
        (7, 5, Some((4, 7))),
        (8, 3, Some((4, 8))),
        (8, 0, Some((4, 8))),
        (8, 4_294_967_295, Some((4, 8))),
        (9, 1, Some((4, 9))),
        (9, 2, None),
        (10, 0, None),
    ];
    for (position, value, expected) in words {
        let index = changed(INDEX, position, value);
        assert_eq!(rt; judged(&HEADER, &index, &sound), expected);
    }
    let figures = [
        (3, 1, Some((4, 3))),
        (4, 0, None),
        (7, 1, Some((4, 7))),
        (8, 0, Some((4, 8))),
        (9, 0, Some((4, 9))),
        (11, 9, None),
    ];
    for (position, value, expected) in figures {
        let figures = changed(FIGURES, position, value).map(Amount::new);
        assert_eq!(rt; judged(&HEADER, &INDEX, &figures), expected);
    }
}

#[test]
fn lengths_and_small_orders(rt: HostRuntime) {
    let figures = FIGURES.map(Amount::new);
    assert_eq!(rt; judged(&HEADER[0..18], &INDEX, &figures), Some((1, 0)));
    assert_eq!(rt; judged(&HEADER, &INDEX[0..11], &figures), Some((1, 1)));
    assert_eq!(rt; judged(&HEADER, &INDEX[0..9], &figures[0..9]), Some((3, 4)));
    // Columns of one row that do not rise.
    let header = [3, 1, 0, 6, 0, 0, 0, 0, 0, 0, 0, 0, 0, 0, 0, 0, 0, 0, 0];
    let two = [0, 0, 0, 0, 7, 8].map(Amount::new);
    assert_eq!(rt; judged(&header, &[4, 6, 6, 6, 1, 2], &two), Some((6, 1)));
    assert_eq!(rt; judged(&header, &[4, 6, 6, 6, 2, 2], &two), Some((4, 5)));
    assert_eq!(rt; judged(&header, &[4, 6, 6, 6, 2, 1], &two), Some((4, 5)));
    // Of order 1 no cell off the diagonal can be right.
    let one = [1, 1, 0, 3, 0, 0, 0, 0, 0, 0, 0, 0, 0, 0, 0, 0, 0, 0, 0];
    let three = [1, 0, 5].map(Amount::new);
    assert_eq!(rt; judged(&one, &[2, 3, 0], &three), Some((4, 2)));
}
