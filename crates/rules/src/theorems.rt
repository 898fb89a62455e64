// What holds of the definitions.
ghost use Rattle.rules.specs.Examples.{WorkedExample};
ghost use Rattle.rules.specs.Tables.{TableRight};
ghost use Rattle.rules.specs.Theories.{ThreeAreTheTable};

// An instance of a rule has as many premises as the table says.
pub fn table_is_right()
    ensures { TableRight }
{}

// The instances of the three theories joined are those of the 25 rules.
pub fn three_are_the_table()
    ensures { ThreeAreTheTable }
{}

// The worked example, with a derivation that is right and one that fails at its second step.
pub fn worked_example_stands()
    ensures { WorkedExample }
{}
