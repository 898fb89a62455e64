// What holds of the definitions.
ghost use Rattle.formulas.specs.Records.{RecordsAreShapes};

// A formula may be written as a record or as a shape: each gives the other back.
pub fn records_are_shapes()
    ensures { RecordsAreShapes }
{}
