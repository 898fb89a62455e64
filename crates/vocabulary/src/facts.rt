// What is stored of a formula.
use formulas::kinds::Kind;
use formulas::records::Record;

// What a formula is known by without going down its operands.
#[derive(Clone, Copy, PartialEq, Eq, Debug)]
pub struct Facts {
    pub ty: u16,
    pub weight: u16,
    pub depth: u16,
}

#[derive(Clone, Copy, PartialEq, Eq, Debug)]
pub struct Formula {
    pub entered: Record,
    pub facts: Facts,
}

// What stands at a number that no formula has.
pub(crate) const FALSITY: Formula = Formula {
    entered: Record {
        kind: Kind::False,
        a: 0,
        b: 0,
    },
    facts: Facts {
        ty: 0,
        weight: 1,
        depth: 1,
    },
};
