// The side formulas of a sequent: those that a rule names beside the context H.
// An enum and no vector: `One(a)` and `Two(a, b)` read as the table of rules does, and are copied.
#[derive(Clone, Copy)]
pub enum SideFormulas {
    Nothing,
    One(u16),
    Two(u16, u16),
}
