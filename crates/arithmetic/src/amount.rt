ghost use Rattle.std.specs.Prelude.{◌≡◌, true, Some, decimal};
ghost use Rattle.arithmetic.specs.Amounts.{amount_figures, quantity};
ghost use Rattle.std.proofs.Common.{rules};

use crate::Arithmetic;
use std::fmt;

// A whole number from 0 to the ceiling, 4,294,967,295. A sum or a product above the ceiling becomes the ceiling.
#[derive(Clone, Copy, Debug, PartialEq, Eq)]
pub struct Amount {
    value: u32,
}

// `From` both ways would be these two functions, without names that say which way they go.
impl Amount {
    pub fn new(value: u32) -> Self
        ensures { amount_figures.meaning result ≡ quantity value }
    {
        Amount { value }
    }

    pub fn value(self) -> u32
        ensures { amount_figures.meaning self ≡ quantity result }
    {
        let Amount { value } = self;
        value
    }
}

impl Arithmetic for Amount {
    ghost figures = { amount_figures };

    ghost COMMUTES = { true };

    const COMMUTES: bool = true;

    ghost commuting = { Prim.search rules };

    fn zero() -> Amount {
        Amount { value: 0 }
    }

    fn unit() -> Amount {
        Amount { value: 1 }
    }

    fn add(self, other: Amount) -> Amount {
        Amount {
            value: self.value.saturating_add(other.value),
        }
    }

    fn multiply(self, other: Amount) -> Amount {
        Amount {
            value: self.value.saturating_mul(other.value),
        }
    }

    fn is_zero(self) -> bool {
        self.value == 0
    }
}

impl fmt::Display for Amount {
    ghost output = { λ a. Some (decimal (amount_figures.meaning a).0) };

    fn fmt<W: fmt::Write>(&self, f: &mut fmt::Formatter<W>) -> fmt::Result {
        let value = self.value;
        write!(f, "{value}")
    }
}
