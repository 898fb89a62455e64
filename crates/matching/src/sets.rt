// Tests on the hypotheses of a sequent and its side formulas.
ghost use Rattle.std.specs.Prelude.{◌≡◌};
ghost use Rattle.vocabulary.specs.View.{model};
ghost use Rattle.matching.specs.Sets.{has_side, is_side, covered, same_context, absent};

use crate::side::SideFormulas;
use questions::substitution::is_free;
use vocabulary::store::Vocabulary;

// Whether all of the side formulas are in the list.
pub(crate) fn has_side(side: SideFormulas, list: &[u16]) -> bool
    ensures { result ≡ has_side side list.now }
{
    match side {
        SideFormulas::Nothing => true,
        SideFormulas::One(p) => list.contains(&p),
        SideFormulas::Two(p, q) => list.contains(&p) && list.contains(&q),
    }
}

fn is_side(side: SideFormulas, x: u16) -> bool
    ensures { result ≡ is_side side x }
{
    match side {
        SideFormulas::Nothing => false,
        SideFormulas::One(p) => x == p,
        SideFormulas::Two(p, q) => x == p || x == q,
    }
}

// Whether all that `xs` has beside the side formulas is in `ys`.
pub fn covered(side: SideFormulas, xs: &[u16], ys: &[u16]) -> bool
    ensures { result ≡ covered side xs.now ys.now }
{
    xs.iter().all(|x| is_side(side, *x) || ys.contains(x))
}

// Whether two lists, with the side formulas c and d, can have one context.
pub(crate) fn same_context(c: SideFormulas, xs: &[u16], d: SideFormulas, ys: &[u16]) -> bool
    ensures { result ≡ same_context c xs.now d ys.now }
{
    covered(c, xs, ys) && covered(d, ys, xs)
}

// Whether x is free in nothing that the list has beside the side formulas.
pub(crate) fn absent(v: &Vocabulary, x: u16, side: SideFormulas, list: &[u16]) -> bool
    ensures { result ≡ absent (model v.now) x side list.now }
{
    list.iter().all(|n| is_side(side, *n) || !is_free(v, x, *n))
}
