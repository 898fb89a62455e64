// How much a vocabulary holds.
pub const MAX_TYPES: usize = 64;

pub const MAX_VARIABLES: usize = 256;

pub const MAX_SET_NAMES: usize = 64;

pub const MAX_FORMULAS: usize = 2048;

// How large a formula may be.
pub const MAX_WEIGHT: u16 = 4095;

pub const MAX_DEPTH: u16 = 64;
