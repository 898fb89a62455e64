// One step of a derivation.
// The rule is a number and no enum, since any theory may know rules of its own.
#[derive(Clone, Copy, PartialEq, Eq, Debug)]
pub struct Step {
    pub rule: u16,
    pub goal: u16,
    pub start: u16,
    pub count: u16,
    pub first: u16,
    pub second: u16,
    pub a: u16,
    pub b: u16,
    pub c: u16,
}
