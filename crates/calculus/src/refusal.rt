// Why a derivation is refused.
ghost use Rattle.std.specs.Prelude.{◌≡◌};
ghost use Rattle.calculus.specs.Refusals.{notice};

use formulas::refusals::{Layer, Notice};

#[derive(Clone, Copy, PartialEq, Eq, Debug)]
pub enum Fault {
    Size,
    Range,
    NotASequent,
    UnknownRule,
    LatePremise,
    NoInstance,
}

// A fault and the step that has it; the sizes are a fault of the whole, at step 0.
#[derive(Clone, Copy, PartialEq, Eq, Debug)]
pub struct Refusal {
    pub fault: Fault,
    pub step: u16,
}

impl Refusal {
    // Sizes that no derivation may have.
    pub const SIZE: Refusal = Refusal {
        fault: Fault::Size,
        step: 0,
    };
}

impl From<Refusal> for Notice {
    ghost from_gives = { λ refusal n. n ≡ notice refusal };

    fn from(refusal: Refusal) -> Notice {
        let number = match refusal.fault {
            Fault::Size => 20,
            Fault::Range => 21,
            Fault::NotASequent => 22,
            Fault::UnknownRule => 23,
            Fault::LatePremise => 24,
            Fault::NoInstance => 25,
        };
        Notice {
            number,
            layer: Layer::Derivation,
            place: refusal.step,
        }
    }
}
