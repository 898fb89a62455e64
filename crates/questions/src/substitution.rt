// Free variables and substitution: questions that go down the operands.
ghost use Rattle.std.specs.Prelude.{◌≡◌, false, T, ◌↔◌};
ghost use Rattle.logic.specs.Formulas.{free, Substituted, IsSubstitution};
ghost use Rattle.logic.specs.Meanings.{Independent, MeansWith};
ghost use Rattle.questions.specs.Leaves.{free_from, substituted_under};
ghost use Rattle.vocabulary.specs.View.{model};

use formulas::kinds::Kind;
use formulas::records::Record;
use vocabulary::store::Vocabulary;

// Whether x is free in n. Where it is not, its value makes no difference to n.
pub fn is_free(v: &Vocabulary, x: u16, n: u16) -> bool
    ensures answer { result ≡ free (model v.now) x n }
    ensures law { result ≡ false → Independent (model v.now) x n }
{
    let r = v.record(n);
    let first = r.kind.first_role().is_formula() && is_free(v, x, r.a);
    let second = r.kind.second_role().is_formula() && is_free(v, x, r.b);
    free_from(x, r, first, second)
}

// Whether q is p with e for x, where x is free in p, which has the record r; s is q's record. What the operands answered comes as
// two parameters: a struct of them would be taken apart in the next line.
fn substituted_under(
    v: &Vocabulary,
    e: u16,
    r: Record,
    s: Record,
    q: u16,
    first: bool,
    second: bool,
) -> bool
    ensures { result ≡ substituted_under (model v.now) e r s q first second }
{
    match r.kind {
        Kind::Variable => q == e,
        Kind::ForAll | Kind::Exists if is_free(v, r.a, e) => false,
        _ => s.kind == r.kind && first && second,
    }
}

// Whether q is p with e for x, the types aside.
fn replaces(v: &Vocabulary, x: u16, e: u16, p: u16, q: u16) -> bool
    ensures { T result ↔ Substituted (model v.now) x e p q }
{
    if !is_free(v, x, p) {
        return q == p;
    }
    let r = v.record(p);
    let s = v.record(q);
    let first = if r.kind.first_role().is_formula() {
        replaces(v, x, e, r.a, s.a)
    } else {
        s.a == r.a
    };
    let second = if r.kind.second_role().is_formula() {
        replaces(v, x, e, r.b, s.b)
    } else {
        s.b == r.b
    };
    substituted_under(v, e, r, s, q, first, second)
}

// Whether q is p with e for x: no, unless p is known and e is an expression of the type of the known variable x.
// Where it is, q means what p means with x at the value of e.
pub fn is_substitution(v: &Vocabulary, q: u16, p: u16, x: u16, e: u16) -> bool
    ensures answer { T result ↔ IsSubstitution (model v.now) q x e p }
    ensures law { T result → MeansWith (model v.now) q x e p }
{
    let known = v.knows_formula(p);
    let variable = v.knows_variable(x);
    let expression = v.is_expression(e);
    let agree = v.facts_at(e).ty == v.variable_type(x);
    let substituted = replaces(v, x, e, p, q);
    known & (variable & (expression & (agree & substituted)))
}

// Whether x is free in a formula, from whether it is free in its operands.
fn free_from(x: u16, r: Record, first: bool, second: bool) -> bool
    ensures { result ≡ free_from x r first second }
{
    match r.kind {
        Kind::Variable => x == r.a,
        Kind::ForAll | Kind::Exists => x != r.a && second,
        _ => first || second,
    }
}
