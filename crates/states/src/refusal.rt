ghost use Rattle.std.specs.Prelude.{◌≡◌};
ghost use Rattle.states.specs.Refusals.{in_book, notice};
ghost use Rattle.states.specs.declared.refusal.Refusal.TheVariants.{Derivation};

use calculus::refusal::Refusal as DerivationRefusal;
use formulas::refusals::{Layer, Notice};

// Why a call on a book is refused. A citation's refusal carries its position among the citations.
#[derive(Clone, Copy, PartialEq, Eq, Debug)]
pub enum Refusal {
    NotAPredicate,
    EntriesFull,
    Derivation(DerivationRefusal),
    UnknownCitation(u16),
    CitationNotStanding(u16),
    CitationHeld(u16),
    HypothesesDiffer,
    UnknownEntry,
    NotAGivenRule,
    NotStanding,
    NotHeld,
}

fn in_book(number: u16, place: u16) -> Notice
    ensures { result ≡ in_book number place }
{
    Notice {
        number,
        layer: Layer::Book,
        place,
    }
}

impl From<Refusal> for Notice {
    ghost from_gives = { λ refusal n. n ≡ notice refusal };

    fn from(refusal: Refusal) -> Notice {
        match refusal {
            Refusal::NotAPredicate => in_book(10, 0),
            Refusal::EntriesFull => in_book(11, 0),
            Refusal::Derivation(refusal) => Notice::from(refusal),
            Refusal::UnknownCitation(place) => in_book(26, place),
            Refusal::CitationNotStanding(place) => in_book(27, place),
            Refusal::CitationHeld(place) => in_book(28, place),
            Refusal::HypothesesDiffer => in_book(29, 0),
            Refusal::UnknownEntry => in_book(30, 0),
            Refusal::NotAGivenRule => in_book(31, 0),
            Refusal::NotStanding => in_book(32, 0),
            Refusal::NotHeld => in_book(33, 0),
        }
    }
}

// A derivation's refusal is one of the book that it was brought to.
impl From<DerivationRefusal> for Refusal {
    ghost from_gives = { λ refusal e. e ≡ Derivation refusal };

    fn from(refusal: DerivationRefusal) -> Refusal {
        Refusal::Derivation(refusal)
    }
}
