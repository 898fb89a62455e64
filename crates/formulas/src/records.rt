// Types and formulas as they are entered.
use crate::kinds::Kind;

// No Option of the parts: a carrier is a type of its own, and no product that is missing.
#[derive(Clone, Copy, PartialEq, Eq, Debug)]
pub enum TypeDef {
    Carrier,
    Product(u16, u16),
}

// A formula: a kind and two operands, an operand that the kind does not use being 0.
#[derive(Clone, Copy, PartialEq, Eq, Debug)]
pub struct Record {
    pub kind: Kind,
    pub a: u16,
    pub b: u16,
}
