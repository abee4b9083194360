// Products that vanish from the packed form, sheets of blocks, and the smallest books. Each case compares all that the
// three arrays hold.
use arithmetic::{Amount, Arithmetic, Block, Wait};
use book::{HEADER_WORDS, Refusal};

const ROWS: [u32; 9] = [0, 0, 0, 1, 1, 1, 2, 2, 2];

const COLUMNS: [u32; 9] = [0, 1, 2, 0, 1, 2, 0, 1, 2];

// What the arrays of a book of order 3 hold after two tables are loaded and a call is made. Before that each index
// word is 7 and each figure the unit.
fn after<F: Arithmetic, C: FnOnce(&mut [u32], &mut [u32], &mut [F]) -> Result<usize, Refusal>>(
    first: [F; 9],
    second: [F; 9],
    call: C,
) -> Result<([u32; HEADER_WORDS], [u32; 18], [F; 18]), Refusal>
    requires { C.IsAlwaysCallable call }
{
    let mut header = [0; HEADER_WORDS];
    let mut index = [7; 18];
    let mut figures = [F::unit(); 18];
    book::open(&mut header, &mut index, &mut figures, 3)?;
    for table in [first, second] {
        book::load(
            &mut header,
            &mut index,
            &mut figures,
            &ROWS,
            &COLUMNS,
            &table,
        )?;
    }
    call(&mut header, &mut index, &mut figures)?;
    Ok((header, index, figures))
}

// The header of three sheets that end there.
fn header(ends: [u32; 3]) -> [u32; HEADER_WORDS] {
    let [a, b, c] = ends;
    [3, 3, 0, a, b, c, 0, 0, 0, 0, 0, 0, 0, 0, 0, 0, 0, 0, 0]
}

// The same with tables of blocks, each block as its four amounts; none where a call is sent back.
fn after_blocks<C: FnOnce(&mut [u32], &mut [u32], &mut [Block<Amount>]) -> Result<usize, Refusal>>(
    first: [[u32; 4]; 9],
    second: [[u32; 4]; 9],
    call: C,
) -> Option<([u32; HEADER_WORDS], [u32; 18], [[u32; 4]; 18])>
    requires { C.IsAlwaysCallable call }
{
    let (header, index, figures) = after(blocks(first), blocks(second), call).ok()?;
    let shown = figures.map(|Block { p, q, r, s }| [p.value(), q.value(), r.value(), s.value()]);
    Some((header, index, shown))
}

fn blocks(table: [[u32; 4]; 9]) -> [Block<Amount>; 9] {
    table.map(|[p, q, r, s]| Block {
        p: Amount::new(p),
        q: Amount::new(q),
        r: Amount::new(r),
        s: Amount::new(s),
    })
}

// Of two blocks that are not zero the product can be zero, and off the diagonal it is not stored.
#[test]
fn blocks_vanish(rt: HostRuntime) {
    let o = [0, 0, 0, 0];
    let e = [1, 0, 0, 1];
    let n = [0, 1, 0, 0];
    let m = [0, 0, 1, 0];
    let nm = [1, 0, 0, 0];
    let mn = [0, 0, 0, 1];
    let first = [o, n, o, o, o, o, o, m, o];
    let second = [o, o, o, m, o, n, o, o, o];
    let index = [4, 5, 5, 6, 1, 1, 4, 4, 6, 6, 0, 2, 4, 4, 4, 4, 7, 7];
    let figures = [o, o, o, o, n, m, o, o, o, o, m, n, nm, o, mn, o, e, e];
    assert_eq!(rt;
        after_blocks(first, second, |h, x, f| book::multiply(h, x, f, 0, 1)),
        Some((header([6, 12, 16]), index, figures))
    );
}

// A product keeps the order of its factors, and flip moves blocks and does not turn them round.
#[test]
fn blocks_keep_their_order(rt: HostRuntime) {
    let o = [0, 0, 0, 0];
    let e = [1, 0, 0, 1];
    let x = [1, 1, 0, 1];
    let y = [1, 0, 1, 1];
    let xy = [2, 1, 1, 1];
    let yx = [1, 1, 1, 2];
    let first = [x, x, o, o, o, o, o, o, o];
    let second = [y, o, o, o, o, y, o, o, o];
    let made = |[a, b, column]: [u32; 3], z: [u32; 4]| {
        let index = [4, 5, 5, 5, 1, 4, 4, 5, 5, 2, 4, a, b, 5, column, 7, 7, 7];
        let figures = [x, o, o, o, x, y, o, o, o, y, z, o, o, o, z, e, e, e];
        Some((header([5, 10, 15]), index, figures))
    };
    assert_eq!(rt;
        after_blocks(first, second, |h, x, f| book::multiply(h, x, f, 0, 1)),
        made([5, 5, 2], xy)
    );
    assert_eq!(rt;
        after_blocks(first, second, |h, x, f| book::multiply(h, x, f, 1, 0)),
        made([5, 5, 1], yx)
    );
    assert_eq!(rt;
        after_blocks(first, second, |h, x, f| book::flip(h, x, f, 0)),
        made([4, 5, 0], x)
    );
}

// So many days; never where that is above the longest wait.
fn waits(table: [u32; 9]) -> [Wait; 9] {
    table.map(|days| Wait::days(days).unwrap_or(Wait::never()))
}

// One day more than the longest wait is never, and off the diagonal it is not stored; the longest wait is.
#[test]
fn waits_vanish(rt: HostRuntime) {
    let v = 4_294_967_295;
    let l = 4_294_967_294;
    let k = 4_294_967_293;
    let first = waits([v, l, v, v, v, v, v, k, v]);
    let second = waits([v, v, v, 1, v, 1, v, v, v]);
    let held = after(first, second, |h, x, f| book::multiply(h, x, f, 0, 1));
    let found = held.ok().map(|(header, index, figures)| {
        let days = figures.map(|wait| wait.in_days().unwrap_or(v));
        (header, index, days)
    });
    let index = [4, 5, 5, 6, 1, 1, 4, 4, 6, 6, 0, 2, 4, 4, 4, 5, 0, 7];
    let days = [v, v, v, v, l, k, v, v, v, v, 1, 1, v, v, l, v, l, 0];
    assert_eq!(rt; found, Some((header([6, 12, 17]), index, days)));
}

// What a call answers in a new book, and what the arrays hold then. Before that each index word is 7 and each figure 9.
// A call that is sent back is told by its number and its place.
fn first_call<
    const N: usize,
    C: FnOnce(&mut [u32], &mut [u32], &mut [Amount]) -> Result<usize, Refusal>,
>(
    order: usize,
    call: C,
) -> (
    Result<usize, (u8, usize)>,
    [u32; HEADER_WORDS],
    [u32; N],
    [u32; N],
)
    requires { C.IsAlwaysCallable call }
{
    let mut header = [0; HEADER_WORDS];
    let mut index = [7; N];
    let mut figures = [Amount::new(9); N];
    let _ = book::open(&mut header, &mut index, &mut figures, order);
    let answer = call(&mut header, &mut index, &mut figures);
    let told = answer.map_err(|why| (why.number(), why.place()));
    let mut values = [0; N];
    for (value, figure) in values.iter_mut().zip(&figures) {
        *value = figure.value();
    }
    (told, header, index, values)
}

// Loads 1 and 2 for the same cell.
fn load_twice(
    header: &mut [u32],
    index: &mut [u32],
    figures: &mut [Amount],
) -> Result<usize, Refusal> {
    let twice = [Amount::new(1), Amount::new(2)];
    book::load(header, index, figures, &[0, 0], &[0, 0], &twice)
}

// The header of one sheet, or of none.
fn short_header(order: u32, sheets: u32, end: u32) -> [u32; HEADER_WORDS] {
    [
        order, sheets, 0, end, 0, 0, 0, 0, 0, 0, 0, 0, 0, 0, 0, 0, 0, 0, 0,
    ]
}

#[test]
fn smallest(rt: HostRuntime) {
    assert_eq!(rt;
        first_call::<2, _>(1, |h, x, f| book::unit(h, x, f)),
        (Ok(0), short_header(1, 1, 2), [2, 2], [1, 0])
    );
    assert_eq!(rt;
        first_call::<4, _>(3, |h, x, f| book::unit(h, x, f)),
        (Ok(0), short_header(3, 1, 4), [4; 4], [1, 1, 1, 0])
    );
    assert_eq!(rt;
        first_call::<3, _>(3, |h, x, f| book::unit(h, x, f)),
        (Err((9, 4)), short_header(3, 0, 0), [7; 3], [9; 3])
    );
    assert_eq!(rt;
        first_call::<4, _>(3, load_twice),
        (Err((8, 1)), short_header(3, 0, 0), [7; 4], [9; 4])
    );
}
