ghost use Rattle.std.specs.Prelude.{◌<◌, Decides};
ghost use Rattle.book.specs.Book.{HeaderRule};
ghost use Rattle.book.specs.Checked.{LayoutChecked, HeaderChecked, BookChecked};

use crate::header::Header;
use crate::limits::{HEADER_WORDS, LARGEST_CAPACITY, LARGEST_ORDER, MOST_SHEETS};
use arithmetic::Arithmetic;
use sheet::{Refusal, check_sheet};

// Whether the three arrays have the lengths that they should.
pub(crate) fn check_layout<F: Arithmetic>(
    header: &[u32],
    index: &[u32],
    figures: &[F],
) -> Result<(), Refusal>
    ensures { LayoutChecked (record { header = header.now; index = index.now; figures = figures.now }) result }
{
    if header.len() != HEADER_WORDS {
        return Err(Refusal::Layout(0));
    }
    if index.len() != figures.len() {
        return Err(Refusal::Layout(1));
    }
    if index.len() > LARGEST_CAPACITY {
        return Err(Refusal::Layout(2));
    }
    Ok(())
}

// Whether word w of a header keeps its rule. The rules go by the numbers of the words, so they are read by number here.
fn word_keeps(header: &Header, capacity: usize, w: usize) -> bool
    requires { w < 19 }
    ensures { Decides result (HeaderRule header.now.words.now capacity w) }
{
    let words = header.words;
    let word = words[w] as usize;
    let sheets = words[1] as usize;
    match w {
        0 => 1 <= word && word <= LARGEST_ORDER,
        1 => word <= MOST_SHEETS,
        2 => word == 0,
        _ if w <= 2 + sheets => {
            words[w - 1] as usize + words[0] as usize + 1 <= word && word <= capacity
        }
        _ => word == 0,
    }
}

// Whether every word of the header keeps its rule.
fn check_header<F: Arithmetic>(header: &Header, index: &[u32], figures: &[F]) -> Result<(), Refusal>
    ensures { HeaderChecked (record { header = header.now.words.now; index = index.now; figures = figures.now }) result }
{
    // By number, which is told.
    for w in 0..HEADER_WORDS {
        if !word_keeps(header, index.len(), w) {
            return Err(Refusal::Header(w));
        }
    }
    Ok(())
}

// Whether the book is sound: the lengths of the arrays, then the header word by word, then the sheets in order.
pub fn check_book<F: Arithmetic>(
    header: &[u32],
    index: &[u32],
    figures: &[F],
) -> Result<(), Refusal>
    ensures { BookChecked F.Arithmetic.figures (record { header = header.now; index = index.now; figures = figures.now }) result }
{
    check_layout(header, index, figures)?;
    let header = Header { words: header };
    check_header(&header, index, figures)?;
    let order = header.order();
    for k in 0..header.sheets() {
        let (from, to) = header.place_of(k);
        check_sheet(order, from, &index[from..to], &figures[from..to])?;
    }
    Ok(())
}
