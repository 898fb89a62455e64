// What holds of the definitions.
ghost use Rattle.questions.specs.Example.{WorkedExample};

// The worked example, entered and asked about.
pub fn worked_example_stands()
    ensures { WorkedExample }
{}
