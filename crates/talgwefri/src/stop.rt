// Why a command has no answer.
use script::Command;
use sheet::Refusal;
use std::alloc::{AllocError, AllocFailed};
use std::fmt;

#[derive(Clone, Copy)]
pub(crate) enum Stop {
    SentBack(Refusal),
    Memory(AllocError),
}

impl From<Refusal> for Stop {
    fn from(refusal: Refusal) -> Stop {
        Stop::SentBack(refusal)
    }
}

impl From<AllocError> for Stop {
    fn from(why: AllocError) -> Stop {
        Stop::Memory(why)
    }
}

impl<T: Drop> From<AllocFailed<T>> for Stop {
    fn from(why: AllocFailed<T>) -> Stop {
        Stop::Memory(AllocError::from(why))
    }
}

// A refusal of the call of a command.
#[derive(Drop)]
pub(crate) struct SentBack<'a, F> {
    pub(crate) refusal: Refusal,
    pub(crate) command: &'a Command<F>,
}

// What a refusal means, in a sentence. What is misplaced in a load is an entry.
impl<F> SentBack<'_, F> {
    fn write_meaning<W: fmt::Write>(&self, f: &mut fmt::Formatter<W>) -> fmt::Result {
        match (self.refusal, self.command) {
            (Refusal::Layout(0), _) => {
                f.write_str("the header has not 19 words, so no book is open.")
            }
            (Refusal::Layout(1), _) => f.write_str("the index and the figures differ in length."),
            (Refusal::Layout(_), _) => f.write_str("the capacity is above 65536."),
            (Refusal::Order(order), _) => {
                write!(f, "the order is {order}, and not from 1 to 1024.")
            }
            (Refusal::Header(word), _) => write!(f, "word {word} of the header breaks its rule."),
            (Refusal::Position(place), _) => {
                write!(f, "position {place} of the index breaks its rule.")
            }
            (Refusal::Lengths(list), _) => {
                write!(
                    f,
                    "list {list}, counted from 0, has not the length that it must have."
                )
            }
            (Refusal::Sheet(sheet), _) => write!(f, "the book has no sheet {sheet}."),
            (Refusal::Full(sheets), _) => {
                write!(f, "the book has {sheets} sheets, and can have no more.")
            }
            (Refusal::Misplaced(entry), Command::Load(_)) => write!(
                f,
                "entry {entry}, counted from 0, is outside the table or not after the one before it."
            ),
            (Refusal::Misplaced(0), _) => f.write_str("the table has no such row."),
            (Refusal::Misplaced(_), _) => f.write_str("the table has no such column."),
            (Refusal::Room(size), _) => write!(
                f,
                "the new sheet is {size} places long, and the book has not so much room left."
            ),
        }
    }
}

impl<F> fmt::Display for SentBack<'_, F> {
    fn fmt<W: fmt::Write>(&self, f: &mut fmt::Formatter<W>) -> fmt::Result {
        let number = self.refusal.number();
        let place = self.refusal.place();
        write!(f, "sent back with number {number}, place {place}: ")?;
        self.write_meaning(f)
    }
}
