#![tactic(auto)]

mod check;
mod cursor;
mod loading;
mod packed;
mod refusal;
mod sound;
mod units;
mod weighing;
mod writing;

pub use check::check_sheet;
pub use cursor::{advanced, column_at, spot};
pub use loading::{Entries, check_entries};
pub use packed::{packed_form_exists, packed_form_is_unique, sound_sheet_is_packed};
pub use refusal::Refusal;
pub use sound::{Pair, RowCell, Sheet};
pub use units::write_unit;
pub use weighing::weigh;
pub use writing::{places, start_row, write_entry};
