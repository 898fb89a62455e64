use crate::side::SideFormulas;

// A line of the table for a step: the side formulas of the conclusion and of each premise, and the variable that must not be
// free in H.
#[derive(Clone, Copy)]
pub struct Line {
    pub conclusion: SideFormulas,
    pub first: SideFormulas,
    pub second: SideFormulas,
    pub fresh: Option<u16>,
}
