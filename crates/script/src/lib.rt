// Scripts: the parts of one, each with an arithmetic, and the commands of a part, read from text.
#![tactic(auto)]

mod command;
mod fault;
mod lines;
mod listed;
mod lists;
mod part;

pub use command::Command;
pub use fault::{Fault, Found};
pub use listed::{Counted, Listed};
pub use lists::{Entries, Lists, Working};
pub use part::{Part, read};
