// That every call has one outcome. Each function stands for a theorem, over every arithmetic; it does nothing,
// and its contract is the theorem.
ghost use Rattle.book.specs.Single.{OutcomeIsSingle, CellIsSingle, RowIsSingle, ColumnsAreSingle, FiguresAreSingle, WorkingIsSingle};

use arithmetic::Arithmetic;

pub fn outcome_is_single<F: Arithmetic>()
    ensures { OutcomeIsSingle F.Arithmetic.figures }
{}

pub fn lookup_is_single<F: Arithmetic>()
    ensures cell { CellIsSingle F.Arithmetic.figures }
    ensures row { RowIsSingle F.Arithmetic.figures }
    ensures columns { ColumnsAreSingle F.Arithmetic.figures }
    ensures figures { FiguresAreSingle F.Arithmetic.figures }
{}

pub fn working_is_single<F: Arithmetic>()
    ensures { WorkingIsSingle F.Arithmetic.figures }
{}
