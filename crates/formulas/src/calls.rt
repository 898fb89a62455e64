// What a vocabulary can be asked to enter.
#[derive(Clone, Copy)]
pub enum Call {
    NewCarrier,
    NewProduct(u16, u16),
    NewVariable(u16),
    NewSetName(u16),
    // a kind and two operands; any numbers may be brought, so the kind is one too
    EnterFormula(u16, u16, u16),
}
