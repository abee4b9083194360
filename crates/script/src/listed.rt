// How a list and a count are written in the record.
use std::fmt;

// The items with commas between them, or `none`.
#[derive(Drop)]
pub struct Listed<'a, T>(pub &'a [T]);

// So many things of a kind, which has a name for one and a name for several.
#[derive(Clone, Copy)]
pub struct Counted(pub usize, pub &'static str, pub &'static str);

impl<T: fmt::Display> fmt::Display for Listed<'_, T> {
    fn fmt<W: fmt::Write>(&self, f: &mut fmt::Formatter<W>) -> fmt::Result {
        let Some((first, others)) = self.0.split_first() else {
            return f.write_str("none");
        };
        write!(f, "{first}")?;
        for item in others {
            write!(f, ", {item}")?;
        }
        Ok(())
    }
}

impl fmt::Display for Counted {
    fn fmt<W: fmt::Write>(&self, f: &mut fmt::Formatter<W>) -> fmt::Result {
        let Counted(count, one, several) = *self;
        match count {
            1 => write!(f, "1 {one}"),
            _ => write!(f, "{count} {several}"),
        }
    }
}
