// Why a call is refused.
ghost use Rattle.std.specs.Prelude.{◌≡◌, Some};
ghost use Rattle.formulas.specs.Refusals.{notice, layer_text, notice_text};

use std::fmt;

// Where a refusal comes from: its numbers are 1 to 9, 20 to 25, and the rest.
#[derive(Clone, Copy, PartialEq, Eq, Debug)]
pub enum Layer {
    Vocabulary,
    Derivation,
    Book,
}

// What a refusal carries, as it is printed: a place is 0 where there is none.
#[derive(Clone, Copy, PartialEq, Eq, Debug)]
pub struct Notice {
    pub number: u16,
    pub layer: Layer,
    pub place: u16,
}

#[derive(Clone, Copy, PartialEq, Eq, Debug)]
pub enum Refusal {
    TypesFull,
    UnknownType,
    VariablesFull,
    SetNamesFull,
    UnknownKind,
    WrongOperand,
    TypesDisagree,
    TooLarge,
    FormulasFull,
}

impl From<Refusal> for Notice {
    ghost from_gives = { λ refusal n. n ≡ notice refusal };

    fn from(refusal: Refusal) -> Notice {
        let number = match refusal {
            Refusal::TypesFull => 1,
            Refusal::UnknownType => 2,
            Refusal::VariablesFull => 3,
            Refusal::SetNamesFull => 4,
            Refusal::UnknownKind => 5,
            Refusal::WrongOperand => 6,
            Refusal::TypesDisagree => 7,
            Refusal::TooLarge => 8,
            Refusal::FormulasFull => 9,
        };
        Notice {
            number,
            layer: Layer::Vocabulary,
            place: 0,
        }
    }
}

impl fmt::Display for Layer {
    ghost output = { λ l. Some (layer_text l) };

    fn fmt<W: fmt::Write>(&self, f: &mut fmt::Formatter<W>) -> fmt::Result {
        f.write_str(match self {
            Layer::Vocabulary => "vocabulary",
            Layer::Derivation => "derivation",
            Layer::Book => "book",
        })
    }
}

impl fmt::Display for Notice {
    ghost output = { λ n. Some (notice_text n) };

    fn fmt<W: fmt::Write>(&self, f: &mut fmt::Formatter<W>) -> fmt::Result {
        write!(f, "{} {} {}", self.number, self.layer, self.place)
    }
}
