// The questions that the rules ask of a vocabulary.
ghost use Rattle.std.specs.Prelude.{◌≡◌, true, false, MatchOption};
ghost use Rattle.vocabulary.specs.View.{model};
ghost use Rattle.matching.specs.Reading.{is, equates_pairs, first_operand, has_kind, has_number, number_of, second_operand};

use formulas::kinds::Kind;
use formulas::records::Record;
use questions::reading::has_record;
use vocabulary::store::Vocabulary;

// Whether n is the number of this formula.
pub(crate) fn is(v: &Vocabulary, n: u16, kind: Kind, a: u16, b: u16) -> bool
    ensures { result ≡ is (model v.now) n kind a b }
{
    has_record(v, n, Record { kind, a, b })
}

pub fn is_falsity(v: &Vocabulary, n: u16) -> bool
    ensures { result ≡ is (model v.now) n Kind.False 0 0 }
{
    is(v, n, Kind::False, 0, 0)
}

// The operands of the formula n, if it is of this kind.
pub(crate) fn operands(v: &Vocabulary, n: u16, kind: Kind) -> Option<(u16, u16)>
    ensures { MatchOption result (has_kind (model v.now) n kind ≡ false) (λ r. (has_kind (model v.now) n kind ≡ true) × (r.0 ≡ first_operand (model v.now) n) × (r.1 ≡ second_operand (model v.now) n)) }
{
    let Record { a, b, .. } = v.record(n);
    is(v, n, kind, a, b).then_some((a, b))
}

// The first parts and the second parts of the two pairs of which n is the equation, if it is one.
pub(crate) fn pair_parts(v: &Vocabulary, n: u16) -> Option<((u16, u16), (u16, u16))>
    ensures { MatchOption result (equates_pairs (model v.now) n ≡ false) (λ r. (equates_pairs (model v.now) n ≡ true)
        × (r.0.0 ≡ first_operand (model v.now) (first_operand (model v.now) n)) × (r.0.1 ≡ first_operand (model v.now) (second_operand (model v.now) n))
        × (r.1.0 ≡ second_operand (model v.now) (first_operand (model v.now) n)) × (r.1.1 ≡ second_operand (model v.now) (second_operand (model v.now) n))) }
{
    let (e, f) = operands(v, n, Kind::Equal)?;
    let (e1, e2) = operands(v, e, Kind::Pair)?;
    let (f1, f2) = operands(v, f, Kind::Pair)?;
    Some(((e1, f1), (e2, f2)))
}

// The number of a formula, if it has one.
pub(crate) fn number_of(v: &Vocabulary, kind: Kind, a: u16, b: u16) -> Option<u16>
    ensures { MatchOption result (has_number (model v.now) kind a b ≡ false) (λ n. (has_number (model v.now) kind a b ≡ true) × (n ≡ number_of (model v.now) kind a b)) }
{
    v.formula_number(Record { kind, a, b })
}
