#![tactic(auto)]

// Damaged books, as tests: each kind of damage gets its number and its place. There is nothing else in this crate.
#[cfg(test)]
mod tests;
