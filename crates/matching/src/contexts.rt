// Whether some context H fits a line.
ghost use Rattle.std.specs.Prelude.{◌≡◌};
ghost use Rattle.vocabulary.specs.View.{model};
ghost use Rattle.calculus.specs.Model.{seq, seqs};
ghost use Rattle.matching.specs.Lines.{contexts_agree, fresh_absent, line_fits};

use crate::line::Line;
use crate::sets::{absent, has_side, same_context};
use calculus::Sequent;
use vocabulary::store::Vocabulary;

// Whether each sequent has its side formulas, and all can have one context. A pass over the premises would have to pair each with its
// side formulas; the three cases are all that there are.
fn contexts_agree(l: &Line, s: &Sequent, premises: &[Sequent]) -> bool
    ensures { result ≡ contexts_agree l.now (seq s.now) (seqs premises.now) }
{
    let hs = s.hypotheses();
    match premises {
        [] => has_side(l.conclusion, hs),
        [p] => {
            let ps = p.hypotheses();
            has_side(l.conclusion, hs)
                && has_side(l.first, ps)
                && same_context(l.conclusion, hs, l.first, ps)
        }
        [p, q] => {
            let ps = p.hypotheses();
            let qs = q.hypotheses();
            let sides = has_side(l.conclusion, hs)
                && has_side(l.first, ps)
                && has_side(l.second, qs);
            let contexts = same_context(l.conclusion, hs, l.first, ps)
                && same_context(l.conclusion, hs, l.second, qs)
                && same_context(l.first, ps, l.second, qs);
            sides && contexts
        }
        _ => false,
    }
}

// Whether the line's fresh variable, if it has one, is free in no hypothesis beside the side formulas.
fn fresh_absent(v: &Vocabulary, l: &Line, s: &Sequent, premises: &[Sequent]) -> bool
    ensures { result ≡ fresh_absent (model v.now) l.now.fresh l.now (seq s.now) (seqs premises.now) }
{
    let Some(x) = l.fresh else { return true };
    let below = absent(v, x, l.conclusion, s.hypotheses());
    match premises {
        [] => below,
        [p] => below && absent(v, x, l.first, p.hypotheses()),
        [p, q] => {
            below && absent(v, x, l.first, p.hypotheses()) && absent(v, x, l.second, q.hypotheses())
        }
        _ => false,
    }
}

// Functions of the line, the sequent and the premises, and no methods of a struct of the three, which rules make as `Inference`.
pub fn line_fits(v: &Vocabulary, l: &Line, s: &Sequent, premises: &[Sequent]) -> bool
    ensures { result ≡ line_fits (model v.now) l.now (seq s.now) (seqs premises.now) }
{
    contexts_agree(l, s, premises) && fresh_absent(v, l, s, premises)
}
