// The calls on a book that lies in three given arrays. A call is lent the arrays one by one: a struct of them would
// hold three `&mut`, and each contract would have to say of each that it is the same array still. Those that only read
// take them alike, so that a caller lends a book alike to every call.
#![tactic(auto)]

mod adding;
mod check;
mod flipping;
mod header;
mod limits;
mod loading;
mod lookup;
mod making;
mod multiplying;
mod opening;
mod places;
mod single;
mod striking;
mod units;
mod working;

pub use adding::add;
pub use check::check_book;
pub use flipping::flip;
pub use header::Header;
pub use limits::HEADER_WORDS;
pub use loading::load;
pub use lookup::{cell, columns, figures, row};
pub use multiplying::multiply;
pub use opening::{check_open, open};
pub use sheet::Refusal;
pub use single::{lookup_is_single, outcome_is_single, working_is_single};
pub use striking::strike;
pub use units::unit;
pub use working::{column_working, row_working};
