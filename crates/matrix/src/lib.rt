// Square tables and vectors over any arithmetic: no code, and the laws that everything above rests on.
// Each function stands for one law; it does nothing, and its contract is the law.
#![tactic(auto)]

ghost use Rattle.arithmetic.specs.Semiring.{Commutes};
ghost use Rattle.matrix.specs.Laws.{SumsSplit, SumsSwap, SumsDistribute, ProductsAssociate, UnitTable, ProductsDistribute, ProductsFlip, OneTotal, BagsTotal};

use arithmetic::Arithmetic;

pub fn sums_split<F: Arithmetic>()
    ensures { SumsSplit F.Arithmetic.figures.ring }
{}

pub fn sums_swap<F: Arithmetic>()
    ensures { SumsSwap F.Arithmetic.figures.ring }
{}

pub fn sums_distribute<F: Arithmetic>()
    ensures { SumsDistribute F.Arithmetic.figures.ring }
{}

pub fn products_associate<F: Arithmetic>()
    ensures { ProductsAssociate F.Arithmetic.figures.ring }
{}

pub fn unit_table_is_neutral<F: Arithmetic>()
    ensures { UnitTable F.Arithmetic.figures.ring }
{}

pub fn products_distribute<F: Arithmetic>()
    ensures { ProductsDistribute F.Arithmetic.figures.ring }
{}

pub fn products_flip<F: Arithmetic>()
    ensures { Commutes F.Arithmetic.figures.ring → ProductsFlip F.Arithmetic.figures.ring }
{}

pub fn one_total<F: Arithmetic>()
    ensures { OneTotal F.Arithmetic.figures.ring }
{}

pub fn bags_total<F: Arithmetic>()
    ensures { BagsTotal F.Arithmetic.figures.ring }
{}
