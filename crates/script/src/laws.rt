// What holds of every script.
ghost use Rattle.script.specs.Worked.{WorkedExample};
ghost use Rattle.script.specs.Sessions.{OthersStay, NumbersStay, AlwaysCurrent, AlwaysRun, AlwaysWellFormed};

pub fn others_stay()
    ensures { OthersStay }
{}

pub fn numbers_stay()
    ensures { NumbersStay }
{}

pub fn always_current()
    ensures { AlwaysCurrent }
{}

pub fn always_run()
    ensures { AlwaysRun }
{}

pub fn always_well_formed()
    ensures { AlwaysWellFormed }
{}

// The worked example: its vocabulary, its derivations and its run.
pub fn worked_example_stands()
    ensures { WorkedExample }
{}
