// Worked examples of arithmetics, sheets and workings, proved.
#![tactic(auto)]

ghost use Rattle.worked.specs.Worked.{Worked};

// Does nothing: its contract is the list of worked examples.
pub fn worked_examples()
    ensures { Worked }
{}
