ghost use Rattle.std.specs.Prelude.{◌≡◌, ◌<◌, ◌≤◌, true, Some, MatchOption};
ghost use Rattle.arithmetic.specs.Waits.{wait_figures, delay, longest, never, written};
ghost use Rattle.std.proofs.Common.{rules};

use crate::Arithmetic;
use std::fmt;

// The longest wait, in days.
const LONGEST: u32 = 4_294_967_294;

// A wait of whole days, or never. A stored number above the longest wait means never: one number for both, so that the
// shorter wait is the `min` and a sum stops at never by itself. Its maker and its reader speak of an Option.
#[derive(Clone, Copy, Debug, PartialEq, Eq)]
pub struct Wait {
    stored: u32,
}

impl Wait {
    // The wait of so many days; none where that is above the longest wait. No `TryFrom`: it wants an error, and there
    // is nothing more to tell.
    pub fn days(n: u32) -> Option<Wait>
        ensures { MatchOption result (longest < n) (λ w. (n ≤ longest) × (wait_figures.meaning w ≡ delay n)) }
    {
        if n > LONGEST {
            return None;
        }
        Some(Wait { stored: n })
    }

    pub fn never() -> Wait
        ensures { wait_figures.meaning result ≡ delay never }
    {
        Wait { stored: u32::MAX }
    }

    // How many days it is; none where it is never.
    pub fn in_days(self) -> Option<u32>
        ensures { MatchOption result (wait_figures.meaning self ≡ delay never) (λ n. (n ≤ longest) × (wait_figures.meaning self ≡ delay n)) }
    {
        if self.stored > LONGEST {
            return None;
        }
        Some(self.stored)
    }
}

impl Arithmetic for Wait {
    ghost figures = { wait_figures };

    ghost COMMUTES = { true };

    const COMMUTES: bool = true;

    ghost commuting = { Prim.search rules };

    fn zero() -> Wait {
        Wait::never()
    }

    fn unit() -> Wait {
        Wait { stored: 0 }
    }

    // The shorter wait.
    fn add(self, other: Wait) -> Wait {
        Wait {
            stored: self.stored.min(other.stored),
        }
    }

    // One wait after the other. A number that means never keeps the sum above the longest wait.
    fn multiply(self, other: Wait) -> Wait {
        Wait {
            stored: self.stored.saturating_add(other.stored),
        }
    }

    fn is_zero(self) -> bool {
        LONGEST < self.stored
    }
}

impl fmt::Display for Wait {
    ghost output = { λ w. Some (written (wait_figures.meaning w)) };

    fn fmt<W: fmt::Write>(&self, f: &mut fmt::Formatter<W>) -> fmt::Result {
        match self.in_days() {
            Some(n) => write!(f, "{n}"),
            None => write!(f, "never"),
        }
    }
}
