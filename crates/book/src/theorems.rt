// What holds of the definitions.
ghost use Rattle.book.specs.Example.{WorkedRun};

use calculus::theory::Theory;

// The run reckoned by hand, with any theory in which its derivation is right.
pub fn worked_run_stands<T: Theory>(theory: &T)
    ensures { WorkedRun (T.meaning theory.now) }
{}
