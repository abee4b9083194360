ghost use Rattle.std.specs.Prelude.{true, if◌then◌else◌, Some, codes};
ghost use Rattle.arithmetic.specs.YesOrNo.{yes_no_figures, said};
ghost use Rattle.std.proofs.Common.{rules};

use crate::Arithmetic;
use std::fmt;

// Whether something is so.
#[derive(Clone, Copy, Debug, PartialEq, Eq)]
pub enum YesNo {
    No,
    Yes,
}

impl Arithmetic for YesNo {
    ghost figures = { yes_no_figures };

    ghost COMMUTES = { true };

    const COMMUTES: bool = true;

    ghost commuting = { Prim.search rules };

    fn zero() -> YesNo {
        YesNo::No
    }

    fn unit() -> YesNo {
        YesNo::Yes
    }

    // Yes where either is.
    fn add(self, other: YesNo) -> YesNo {
        match self {
            YesNo::Yes => YesNo::Yes,
            YesNo::No => other,
        }
    }

    // Yes where both are.
    fn multiply(self, other: YesNo) -> YesNo {
        match self {
            YesNo::Yes => other,
            YesNo::No => YesNo::No,
        }
    }

    fn is_zero(self) -> bool {
        matches!(self, YesNo::No)
    }
}

impl fmt::Display for YesNo {
    ghost output = { λ a. Some (if said a then codes "yes" else codes "no") };

    fn fmt<W: fmt::Write>(&self, f: &mut fmt::Formatter<W>) -> fmt::Result {
        match self {
            YesNo::Yes => write!(f, "yes"),
            YesNo::No => write!(f, "no"),
        }
    }
}
