ghost use Rattle.std.specs.Prelude.{false, Some, codes};
ghost use Rattle.std.specs.Fmt.{option_append};
ghost use Rattle.arithmetic.specs.Squares.{block_figures};
ghost use Rattle.std.proofs.Common.{rules};

use crate::Arithmetic;
use std::fmt;

// Four figures in two rows, (p q; r s), multiplied as tables are: a × b is seldom b × a.
#[derive(Clone, Copy, Debug, PartialEq, Eq)]
pub struct Block<A> {
    pub p: A,
    pub q: A,
    pub r: A,
    pub s: A,
}

impl<A: Arithmetic> Arithmetic for Block<A> {
    ghost figures = { block_figures A.Arithmetic.figures };

    // Blocks do not commute, whatever figures they are made of.
    ghost COMMUTES = { false };

    const COMMUTES: bool = false;

    ghost commuting = { Prim.search rules };

    fn zero() -> Block<A> {
        Block {
            p: A::zero(),
            q: A::zero(),
            r: A::zero(),
            s: A::zero(),
        }
    }

    fn unit() -> Block<A> {
        Block {
            p: A::unit(),
            q: A::zero(),
            r: A::zero(),
            s: A::unit(),
        }
    }

    fn add(self, other: Block<A>) -> Block<A> {
        Block {
            p: self.p.add(other.p),
            q: self.q.add(other.q),
            r: self.r.add(other.r),
            s: self.s.add(other.s),
        }
    }

    fn multiply(self, other: Block<A>) -> Block<A> {
        Block {
            p: self.p.multiply(other.p).add(self.q.multiply(other.r)),
            q: self.p.multiply(other.q).add(self.q.multiply(other.s)),
            r: self.r.multiply(other.p).add(self.s.multiply(other.r)),
            s: self.r.multiply(other.q).add(self.s.multiply(other.s)),
        }
    }

    fn is_zero(self) -> bool {
        (self.p.is_zero() & self.q.is_zero()) & (self.r.is_zero() & self.s.is_zero())
    }
}

impl<A: fmt::Display> fmt::Display for Block<A> {
    ghost output = { λ b. option_append (Some (codes "(")) (option_append (A.Display.output b.p) (option_append (Some (codes " ")) (option_append (A.Display.output b.q) (option_append (Some (codes "; ")) (option_append (A.Display.output b.r) (option_append (Some (codes " ")) (option_append (A.Display.output b.s) (Some (codes ")"))))))))) };

    fn fmt<W: fmt::Write>(&self, f: &mut fmt::Formatter<W>) -> fmt::Result {
        let p = &self.p;
        let q = &self.q;
        let r = &self.r;
        let s = &self.s;
        write!(f, "({p} {q}; {r} {s})")
    }
}
