// The sum of two sheets.
#![tactic(auto)]

mod merge;
mod summing;

pub use summing::{added_length, write_added};
