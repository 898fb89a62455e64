// What holds of the definitions.
ghost use Rattle.calculus.specs.Rising.{SetsAreLists};

// Sequents that are equal as sets of hypotheses have equal lists of them.
pub fn sets_are_lists()
    ensures { SetsAreLists }
{}
