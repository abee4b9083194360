// What the calls that add a sheet have in common. Each of them splits the arrays itself: a function that lent it the
// free parts, with the writing as a closure, would have to say by the closure what the new sheet is.
ghost use Rattle.std.specs.Prelude.{◌≡◌, ◌+◌, ◌<◌, ◌≤◌, length, slice_index, slice_set};
ghost use Rattle.book.specs.Lines.{full, room};
ghost use Rattle.book.specs.Checked.{LineChecked};

use crate::header::Header;
use crate::limits::MOST_SHEETS;
use sheet::Refusal;

// Whether a book of so many sheets can have one more.
pub(crate) fn check_full(sheets: usize) -> Result<(), Refusal>
    ensures { LineChecked (full sheets) result }
{
    if sheets == MOST_SHEETS {
        return Err(Refusal::Full(MOST_SHEETS));
    }
    Ok(())
}

// Whether a sheet of this size fits into what is left.
pub(crate) fn check_room(size: usize, left: usize) -> Result<(), Refusal>
    ensures { LineChecked (room size left) result }
{
    if left < size {
        return Err(Refusal::Room(size));
    }
    Ok(())
}

// Enters one more sheet, which ends at `end`, into the header, and answers its number. The words are written by place,
// as in `open` and `strike`: a `Header` is lent the words to be read.
pub(crate) fn enter_sheet(header: &mut [u32], end: usize) -> usize
    requires { (length header.old ≡ 19) × ((slice_index header.old 1 < 16) × (end ≤ 65536)) }
    ensures number { result ≡ slice_index header.old 1 }
    ensures words { header.new ≡ slice_set (slice_set header.old 1 (slice_index header.old 1 + 1)) (3 + slice_index header.old 1) end }
{
    let sheets = Header { words: header }.sheets();
    header[1] = (sheets + 1) as u32;
    header[3 + sheets] = end as u32;
    sheets
}
