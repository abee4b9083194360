// The product of two sheets, row by row.
#![tactic(auto)]

mod meetings;
mod multiplying;

pub use meetings::Meetings;
pub use multiplying::{product_length, write_product};
