// What a vocabulary has of a formula. Functions and no methods: the store's crate is below this one.
ghost use Rattle.std.specs.Prelude.{◌≡◌, ℕ, if◌then◌else◌, Some, None};
ghost use Rattle.logic.specs.Deciding.{is_expression, knows_formula, type_of};
ghost use Rattle.logic.specs.Formulas.{node, weight, depth};
ghost use Rattle.logic.specs.Meanings.{Valued};
ghost use Rattle.formulas.specs.Records.{has_record, record_of};
ghost use Rattle.vocabulary.specs.View.{model};

use formulas::records::Record;
use vocabulary::store::Vocabulary;

// The record of a formula.
pub fn formula(v: &Vocabulary, n: u16) -> Option<Record>
    ensures { result ≡ (if knows_formula (model v.now) n then Some (record_of (node (model v.now) n)) else None) }
{
    v.knows_formula(n).then_some(v.record(n))
}

// Whether n is the number of a formula with the record r.
pub fn has_record(v: &Vocabulary, n: u16, r: Record) -> bool
    ensures { result ≡ has_record (model v.now) n r }
{
    v.knows_formula(n) && v.record(n) == r
}

pub fn weight_of(v: &Vocabulary, n: u16) -> Option<u16>
    ensures { result ≡ (if knows_formula (model v.now) n then Some (weight (model v.now) n) else None) }
{
    v.knows_formula(n).then_some(v.facts_at(n).weight)
}

pub fn depth_of(v: &Vocabulary, n: u16) -> Option<u16>
    ensures { result ≡ (if knows_formula (model v.now) n then Some (depth (model v.now) n) else None) }
{
    v.knows_formula(n).then_some(v.facts_at(n).depth)
}

// The type of an expression; its value is one of that type's.
pub fn type_of(v: &Vocabulary, n: u16) -> Option<u16>
    ensures answer { result ≡ (if is_expression (model v.now) n then Some (type_of (model v.now) n) else None) }
    ensures law { (t : ℕ) → result ≡ Some t → Valued (model v.now) n t }
{
    v.is_expression(n).then_some(v.facts_at(n).ty)
}
