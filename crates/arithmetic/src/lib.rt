#![tactic(auto)]

ghost use Rattle.std.specs.Prelude.{◌≡◌, Bool, true};
ghost use Rattle.arithmetic.specs.Semiring.{Figures, Commutes};

mod amount;
mod block;
mod wait;
mod yes_no;

pub use amount::Amount;
pub use block::Block;
pub use wait::Wait;
pub use yes_no::YesNo;

// An arithmetic: a kind of figure with a zero, a unit, add, multiply and a test for zero, that is, a semiring.
// An `impl` shows the laws by giving `figures`, a record that holds them; code that is generic over
// arithmetics may use them, and nothing else of the figures.
pub trait Arithmetic: Copy {
    // The figures, the semiring that they form, with its laws, and which figure a stored value means.
    ghost figures: { Figures Self };

    // Whether the arithmetic states that a × b is b × a. If it does, it owes that law.
    ghost COMMUTES: { Bool };

    const COMMUTES: bool;

    // A constant has no contract: this function says it, and promises the law where it is yes.
    fn states_commuting() -> bool
        ensures stated { result ≡ COMMUTES }
        ensures kept { result ≡ true → Commutes figures.ring }
    {
        Self::COMMUTES
    }

    fn zero() -> Self
        ensures { figures.meaning result ≡ figures.ring.zero };

    fn unit() -> Self
        ensures { figures.meaning result ≡ figures.ring.unit };

    fn add(self, other: Self) -> Self
        ensures { figures.meaning result ≡ figures.ring.add (figures.meaning self) (figures.meaning other) };

    fn multiply(self, other: Self) -> Self
        ensures { figures.meaning result ≡ figures.ring.mul (figures.meaning self) (figures.meaning other) };

    fn is_zero(self) -> bool
        ensures { result ≡ figures.ring.is_zero (figures.meaning self) };

    ghost commuting: { COMMUTES ≡ true → Commutes figures.ring };
}
