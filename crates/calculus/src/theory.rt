ghost use Rattle.std.specs.Prelude.{◌≡◌, Decides};
ghost use Rattle.vocabulary.specs.View.{model};
ghost use Rattle.calculus.specs.Model.{seq, seqs};
ghost use Rattle.calculus.specs.Theories.{Meaning, Sound, Regular, joined, premises};
ghost use Rattle.calculus.specs.Joins.{joined_sound, joined_regular};

use crate::sequent::Sequent;
use crate::step::Step;
use vocabulary::store::Vocabulary;

// A theory: which rules it knows, and what their instances are.
// The parameters of `is_instance` are no struct: theories of other crates are written to them.
pub trait Theory {
    ghost meaning: { Self → Meaning };

    fn knows(&self, rule: u16) -> bool
        ensures { result ≡ (meaning self.now).known rule };

    // How many premises a rule takes; 0 where the theory does not know it, by the law `regular`.
    fn premises(&self, rule: u16) -> u8
        ensures { result ≡ (meaning self.now).arity rule };

    // How many premises a rule takes, if the theory knows it.
    fn premises_if_known(&self, rule: u16) -> Option<u8>
        ensures { result ≡ premises (meaning self.now) rule }
    {
        self.knows(rule).then_some(self.premises(rule))
    }

    fn is_instance(
        &self,
        v: &Vocabulary,
        step: &Step,
        sequent: &Sequent,
        premises: &[Sequent],
    ) -> bool
        ensures { Decides result ((meaning self.now).instance (model v.now) step.now (seq sequent.now) (seqs premises.now)) };

    ghost sound: { (t : Self) → Sound (meaning t) };

    ghost regular: { (t : Self) → Regular (meaning t) };
}

// Two theories joined: what the first knows it judges, the rest goes to the second.
#[derive(Drop)]
pub struct Joined<F, S>(pub F, pub S);

impl<F: Theory, S: Theory> Theory for Joined<F, S> {
    ghost meaning = { λ t. joined (F.meaning t.0) (S.meaning t.1) };

    ghost sound = { λ t. joined_sound (F.meaning t.0) (S.meaning t.1) (F.sound t.0) (S.sound t.1) };

    ghost regular = { λ t. joined_regular (F.meaning t.0) (S.meaning t.1) (F.regular t.0) (S.regular t.1) };

    fn knows(&self, rule: u16) -> bool {
        self.0.knows(rule) || self.1.knows(rule)
    }

    fn premises(&self, rule: u16) -> u8 {
        if self.0.knows(rule) {
            self.0.premises(rule)
        } else {
            self.1.premises(rule)
        }
    }

    fn is_instance(
        &self,
        v: &Vocabulary,
        step: &Step,
        sequent: &Sequent,
        premises: &[Sequent],
    ) -> bool {
        if self.0.knows(step.rule) {
            self.0.is_instance(v, step, sequent, premises)
        } else {
            self.1.is_instance(v, step, sequent, premises)
        }
    }
}
