// The calls of the commands, and their answers in words.
use crate::books::{Book, weighed};
use crate::stop::Stop;
use crate::table::Table;
use arithmetic::Arithmetic;
use script::{Command, Counted, Listed};
use sheet::Refusal;
use std::alloc::Global;
use std::fmt;

// Opens a book in new arrays, in place of the one before.
fn answer_open<F: Arithmetic>(
    book: &mut Book<F>,
    order: usize,
    capacity: usize,
) -> Result<String, Stop> {
    let heap = book.heap();
    *book = Book::with_capacity(heap, capacity)?;
    let sheets = Counted(book.open(order)?, "sheet", "sheets");
    Ok(format!(in heap; "{sheets}.")?)
}

// The number of a new sheet.
fn answer_sheet(heap: Global, made: Result<usize, Refusal>) -> Result<String, Stop> {
    Ok(format!(in heap; "sheet {}.", made?)?)
}

// How many sheets are left.
fn answer_left(heap: Global, left: Result<usize, Refusal>) -> Result<String, Stop> {
    let sheets = Counted(left?, "sheet", "sheets");
    Ok(format!(in heap; "{sheets} left.")?)
}

fn answer_figure<F: fmt::Display + Drop>(
    heap: Global,
    found: Result<F, Refusal>,
) -> Result<String, Stop> {
    Ok(format!(in heap; "{}.", found?)?)
}

// Where the off-diagonal cells of a row lie, with their columns and figures.
fn answer_row<F: Arithmetic + fmt::Display>(
    book: &Book<F>,
    sheet: usize,
    row: usize,
) -> Result<String, Stop> {
    let heap = book.heap();
    let (from, to) = book.row(sheet, row)?;
    let columns = Listed(book.columns(sheet, row)?);
    let figures = Listed(book.figures(sheet, row)?);
    Ok(format!(in heap; "from {from} up to {to}; columns {columns}; figures {figures}.")?)
}

// The vector out of a working, which is as long as the order of the book.
fn answer_working<F: Arithmetic + fmt::Display, W: FnOnce(&mut [F]) -> Result<usize, Refusal>>(
    heap: Global,
    order: usize,
    work: W,
) -> Result<String, Stop>
    requires { W.IsAlwaysCallable work }
{
    let mut out = vec![in heap; F::zero(); order]?;
    work(out.as_mut_slice())?;
    let out = Listed(out.as_slice());
    Ok(format!(in heap; "{out}.")?)
}

// Makes the call of a command, and gives its answer in words.
pub(crate) fn answer<F: Arithmetic + fmt::Display>(
    book: &mut Book<F>,
    command: &Command<F>,
) -> Result<String, Stop> {
    let heap = book.heap();
    match command {
        Command::Open { order, capacity } => answer_open(book, *order, *capacity),
        Command::Unit => answer_sheet(heap, book.unit()),
        Command::Load(entries) => answer_sheet(heap, book.load(entries)),
        Command::Add { first, second } => answer_sheet(heap, book.add(*first, *second)),
        Command::Multiply { first, second } => answer_sheet(heap, book.multiply(*first, *second)),
        Command::Flip { sheet } => answer_sheet(heap, book.flip(*sheet)),
        Command::Strike => answer_left(heap, book.strike()),
        Command::Cell { sheet, row, column } => {
            answer_figure(heap, book.cell(*sheet, *row, *column))
        }
        Command::Row { sheet, row } => answer_row(book, *sheet, *row),
        Command::ColumnWorking(working) => {
            answer_working(heap, book.order(), |out| book.column_working(working, out))
        }
        Command::RowWorking(working) => {
            answer_working(heap, book.order(), |out| book.row_working(working, out))
        }
        Command::Weigh(lists) => answer_figure(heap, weighed(lists)),
        Command::Table { sheet } => Ok(Table::of(book, *sheet)?.to_string(heap)?),
        Command::Arrays => Ok(book.to_string(heap)?),
    }
}
