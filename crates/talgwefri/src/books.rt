// A book in three arrays of its own, and the calls on it.
ghost use Rattle.std.specs.Prelude.{◌≡◌, ◌≤◌};
ghost use Rattle.sheet.specs.Weighing.{Weighs};
ghost use Rattle.book.specs.Calls.{Outcome, Open, Unit', Load, Add, Multiply, Flip, Strike};
ghost use Rattle.book.specs.Lookups.{CellIs, RowIs, RowPartIs};
ghost use Rattle.book.specs.Workings.{ColumnWorked, RowWorked};
ghost use Rattle.talgwefri.specs.Held.{held};
ghost use Rattle.talgwefri.specs.Lent.{Lent};

use arithmetic::Arithmetic;
use book::HEADER_WORDS;
use script::{Counted, Entries, Listed, Lists, Working};
use sheet::{Refusal, weigh};
use std::alloc::{AllocError, Global};
use std::fmt;

// The three arrays of a book, as every call is lent them.
#[derive(Drop)]
pub(crate) struct Book<F> {
    header: Vec<u32>,
    index: Vec<u32>,
    figures: Vec<F>,
}

pub(crate) fn weighed<F: Arithmetic>(lists: &Lists<F>) -> Result<F, Refusal>
    ensures { Weighs F.Arithmetic.figures lists.now.first.items lists.now.second.items result }
{
    weigh(lists.first.as_slice(), lists.second.as_slice())
}

// Each call of the library is a method, under the contract that it has there: so the two parts of a row, and the two
// workings, are methods of their own.
impl<F: Arithmetic> Book<F> {
    // Three arrays without a place, where no book can be.
    pub(crate) fn without_arrays(heap: Global) -> Book<F> {
        Book {
            header: Vec::new(heap),
            index: Vec::new(heap),
            figures: Vec::new(heap),
        }
    }

    // Three arrays of zeros, in which a book of this capacity can be opened.
    pub(crate) fn with_capacity(heap: Global, capacity: usize) -> Result<Book<F>, AllocError> {
        Ok(Book {
            header: vec![in heap; 0; HEADER_WORDS]?,
            index: vec![in heap; 0; capacity]?,
            figures: vec![in heap; F::zero(); capacity]?,
        })
    }

    // Makes a call that is lent the three arrays and may change them.
    fn lend<C: FnOnce(&mut [u32], &mut [u32], &mut [F]) -> Result<usize, Refusal>>(
        &mut self,
        call: C,
    ) -> Result<usize, Refusal>
        requires { C.IsAlwaysCallable call }
        ensures { Lent C.FnOnce call (held self.old) result (held self.new) }
    {
        call(
            self.header.as_mut_slice(),
            self.index.as_mut_slice(),
            self.figures.as_mut_slice(),
        )
    }

    // The three arrays, for a call that changes none of them.
    fn arrays(&self) -> (&[u32], &[u32], &[F])
        ensures header { result.0.now ≡ self.now.header.items }
        ensures index { result.1.now ≡ self.now.index.items }
        ensures figures { result.2.now ≡ self.now.figures.items }
    {
        (
            self.header.as_slice(),
            self.index.as_slice(),
            self.figures.as_slice(),
        )
    }

    pub(crate) fn open(&mut self, order: usize) -> Result<usize, Refusal>
        ensures { Outcome F.Arithmetic.figures (held self.old) (Open order) result (held self.new) }
    {
        self.lend(|header, index, figures| book::open(header, index, figures, order))
    }

    pub(crate) fn unit(&mut self) -> Result<usize, Refusal>
        ensures { Outcome F.Arithmetic.figures (held self.old) Unit' result (held self.new) }
    {
        // A closure: the check does not find the contract of a function of another crate that is passed by its name.
        self.lend(|header, index, figures| book::unit(header, index, figures))
    }

    pub(crate) fn load(&mut self, entries: &Entries<F>) -> Result<usize, Refusal>
        ensures { Outcome F.Arithmetic.figures (held self.old) (Load entries.now.rows.items entries.now.columns.items entries.now.values.items) result (held self.new) }
    {
        let rows = entries.rows.as_slice();
        let columns = entries.columns.as_slice();
        let values = entries.values.as_slice();
        self.lend(|header, index, figures| {
            book::load(header, index, figures, rows, columns, values)
        })
    }

    pub(crate) fn add(&mut self, first: usize, second: usize) -> Result<usize, Refusal>
        ensures { Outcome F.Arithmetic.figures (held self.old) (Add first second) result (held self.new) }
    {
        self.lend(|header, index, figures| book::add(header, index, figures, first, second))
    }

    pub(crate) fn multiply(&mut self, first: usize, second: usize) -> Result<usize, Refusal>
        ensures { Outcome F.Arithmetic.figures (held self.old) (Multiply first second) result (held self.new) }
    {
        self.lend(|header, index, figures| book::multiply(header, index, figures, first, second))
    }

    pub(crate) fn flip(&mut self, sheet: usize) -> Result<usize, Refusal>
        ensures { Outcome F.Arithmetic.figures (held self.old) (Flip sheet) result (held self.new) }
    {
        self.lend(|header, index, figures| book::flip(header, index, figures, sheet))
    }

    pub(crate) fn strike(&mut self) -> Result<usize, Refusal>
        ensures { Outcome F.Arithmetic.figures (held self.old) Strike result (held self.new) }
    {
        self.lend(|header, index, figures| book::strike(header, index, figures))
    }

    pub(crate) fn cell(&self, sheet: usize, row: usize, column: usize) -> Result<F, Refusal>
        ensures { CellIs F.Arithmetic.figures (held self.now) sheet row column result }
    {
        let (header, index, figures) = self.arrays();
        book::cell(header, index, figures, sheet, row, column)
    }

    pub(crate) fn row(&self, sheet: usize, row: usize) -> Result<(usize, usize), Refusal>
        ensures { RowIs F.Arithmetic.figures (held self.now) sheet row result }
    {
        let (header, index, figures) = self.arrays();
        book::row(header, index, figures, sheet, row)
    }

    pub(crate) fn columns(&self, sheet: usize, row: usize) -> Result<&[u32], Refusal>
        ensures { RowPartIs F.Arithmetic.figures (held self.now) self.now.index.items sheet row result }
    {
        let (header, index, figures) = self.arrays();
        book::columns(header, index, figures, sheet, row)
    }

    pub(crate) fn figures(&self, sheet: usize, row: usize) -> Result<&[F], Refusal>
        ensures { RowPartIs F.Arithmetic.figures (held self.now) self.now.figures.items sheet row result }
    {
        let (header, index, figures) = self.arrays();
        book::figures(header, index, figures, sheet, row)
    }

    pub(crate) fn column_working(
        &self,
        working: &Working<F>,
        out: &mut [F],
    ) -> Result<usize, Refusal>
        ensures { ColumnWorked F.Arithmetic.figures (held self.now) working.now.sheet working.now.given.items out.old result out.new }
    {
        let (header, index, figures) = self.arrays();
        book::column_working(
            header,
            index,
            figures,
            working.sheet,
            working.given.as_slice(),
            out,
        )
    }

    pub(crate) fn row_working(&self, working: &Working<F>, out: &mut [F]) -> Result<usize, Refusal>
        ensures { RowWorked F.Arithmetic.figures (held self.now) working.now.sheet working.now.given.items out.old result out.new }
    {
        let (header, index, figures) = self.arrays();
        book::row_working(
            header,
            index,
            figures,
            working.sheet,
            working.given.as_slice(),
            out,
        )
    }
}

impl<F> Book<F> {
    // The heap that the arrays are on.
    pub(crate) fn heap(&self) -> Global {
        *self.header.allocator()
    }

    // A word of the header, or 0 where there is none: a book without arrays has no `Header`.
    fn word(&self, place: usize) -> u32 {
        self.header.get(place).copied().unwrap_or(0)
    }

    pub(crate) fn order(&self) -> usize {
        self.word(0) as usize
    }

    fn sheets(&self) -> usize
        ensures { result ≤ 4294967295 }
    {
        self.word(1) as usize
    }

    // The start of a sheet, which is the end of the sheet before it.
    fn start(&self, sheet: usize) -> usize
        requires { sheet ≤ 4294967295 }
    {
        self.word(2 + sheet) as usize
    }
}

// What a packed array holds of a sheet, if the sheet lies within it.
fn write_part<T: fmt::Display, W: fmt::Write>(
    f: &mut fmt::Formatter<W>,
    sheet: usize,
    name: &str,
    part: Option<&[T]>,
) -> fmt::Result {
    match part {
        Some(items) => {
            let items = Listed(items);
            write!(f, "\n   sheet {sheet}, {name}: {items}")
        }
        None => Ok(()),
    }
}

// The header, and the two packed arrays up to the last end, sheet by sheet.
impl<F: fmt::Display> fmt::Display for Book<F> {
    fn fmt<W: fmt::Write>(&self, f: &mut fmt::Formatter<W>) -> fmt::Result {
        let sheets = self.sheets();
        let count = Counted(sheets, "sheet", "sheets");
        let header = Listed(self.header.as_slice());
        write!(f, "{count}.\n   header: {header}")?;
        for sheet in 0..sheets {
            let (from, to) = (self.start(sheet), self.start(sheet + 1));
            write_part(f, sheet, "index", self.index.get(from..to))?;
            write_part(f, sheet, "figures", self.figures.get(from..to))?;
        }
        Ok(())
    }
}
