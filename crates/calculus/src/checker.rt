// The checker: one function for every theory. Each step is judged against earlier ones.
ghost use Rattle.std.specs.Prelude.{◌≡◌, ℕ, ◌<◌, ◌↔◌, length, is_ok, IfOk, Err, Decides, MatchResult};
ghost use Rattle.logic.specs.Meanings.{Valid};
ghost use Rattle.vocabulary.specs.View.{model};
ghost use Rattle.calculus.specs.Derivations.{at, root, sequent, Earlier, Fails, FirstFault, InRange, Judged, Right, RightBelow, RightDerivation, Shaped, Sized, Unshaped};
ghost use Rattle.calculus.specs.Model.{seq};

use crate::predicates::all_predicates;
use crate::refusal::{Fault, Refusal};
use crate::sequent::Sequent;
use crate::step::Step;
use crate::theory::Theory;
use vocabulary::store::Vocabulary;

const MAX_STEPS: usize = 256;

const MAX_HYPOTHESES: usize = 4096;

// The steps of a derivation over a vocabulary, and the list of which the hypotheses of each are a part.
#[derive(Clone, Copy)]
struct Derivation<'a> {
    vocabulary: &'a Vocabulary,
    steps: &'a [Step],
    list: &'a [u16],
}

impl Derivation<'_> {
    fn is_sized(&self) -> bool
        ensures { Decides result (Sized self.now.steps.now self.now.list.now) }
    {
        !self.steps.is_empty() && self.steps.len() <= MAX_STEPS && self.list.len() <= MAX_HYPOTHESES
    }

    fn in_range(&self, step: &Step) -> bool
        ensures { Decides result (InRange self.now.list.now step.now) }
    {
        usize::from(step.start) + usize::from(step.count) <= self.list.len() && step.count <= 16
    }

    // The sequent of a step, or why it has none.
    fn sequent_of(&self, step: &Step) -> Result<Sequent, Fault>
        ensures { MatchResult result (λ s. InRange self.now.list.now step.now × Shaped (model self.now.vocabulary.now) self.now.list.now step.now × (seq s ≡ sequent self.now.list.now step.now)) (λ f. Unshaped f (model self.now.vocabulary.now) self.now.list.now step.now) }
    {
        if !self.in_range(step) {
            return Err(Fault::Range);
        }
        let start = usize::from(step.start);
        let own = &self.list[start..start + usize::from(step.count)];
        let sequent = Sequent::new(step.goal, own).ok_or(Fault::NotASequent)?;
        if !all_predicates(self.vocabulary, own) || !self.vocabulary.is_predicate(step.goal) {
            return Err(Fault::NotASequent);
        }
        Ok(sequent)
    }

    // The sequent of the step at j, which is known to have one.
    fn sequent_at(&self, j: usize) -> Sequent
        requires within { j < length self.now.steps.now }
        requires range { InRange self.now.list.now (at self.now.steps.now j) }
        requires shaped { Shaped (model self.now.vocabulary.now) self.now.list.now (at self.now.steps.now j) }
        ensures { seq result ≡ sequent self.now.list.now (at self.now.steps.now j) }
    {
        self.sequent_of(&self.steps[j]).unwrap()
    }

    // Whether the step at i, whose rule takes n premises, is an instance, where it passes all checks before that.
    fn is_judged<T: Theory>(&self, theory: &T, i: usize, n: u8, conclusion: &Sequent) -> bool
        requires within { i < length self.now.steps.now }
        requires before { RightBelow (T.meaning theory.now) (model self.now.vocabulary.now) self.now.steps.now self.now.list.now i }
        requires own { seq conclusion.now ≡ sequent self.now.list.now (at self.now.steps.now i) }
        requires count { n ≡ (T.meaning theory.now).arity (at self.now.steps.now i).rule }
        requires earlier { Earlier n i (at self.now.steps.now i) }
        ensures { Decides result (Judged (T.meaning theory.now) (model self.now.vocabulary.now) self.now.steps.now self.now.list.now (at self.now.steps.now i)) }
    {
        let step = self.steps[i];
        match n {
            0 => theory.is_instance(self.vocabulary, &step, conclusion, &[]),
            1 => {
                let p = self.sequent_at(usize::from(step.first));
                theory.is_instance(self.vocabulary, &step, conclusion, &[p])
            }
            _ => {
                let p = self.sequent_at(usize::from(step.first));
                let q = self.sequent_at(usize::from(step.second));
                theory.is_instance(self.vocabulary, &step, conclusion, &[p, q])
            }
        }
    }

    // The first fault of the step at i, where all steps before it are right.
    fn test<T: Theory>(&self, theory: &T, i: usize) -> Result<(), Fault>
        requires within { i < length self.now.steps.now }
        requires before { RightBelow (T.meaning theory.now) (model self.now.vocabulary.now) self.now.steps.now self.now.list.now i }
        ensures { MatchResult result (λ _. Right (T.meaning theory.now) (model self.now.vocabulary.now) self.now.steps.now self.now.list.now i (at self.now.steps.now i)) (λ f. Fails f (T.meaning theory.now) (model self.now.vocabulary.now) self.now.steps.now self.now.list.now i (at self.now.steps.now i)) }
    {
        let step = self.steps[i];
        let sequent = self.sequent_of(&step)?;
        let n = theory
            .premises_if_known(step.rule)
            .ok_or(Fault::UnknownRule)?;
        if !are_earlier(n, i, &step) {
            return Err(Fault::LatePremise);
        }
        if !self.is_judged(theory, i, n, &sequent) {
            return Err(Fault::NoInstance);
        }
        Ok(())
    }
}

// Whether the premises that the rule of the step at i takes are earlier.
fn are_earlier(n: u8, i: usize, step: &Step) -> bool
    ensures { Decides result (Earlier n i step.now) }
{
    (n == 0 || usize::from(step.first) < i) && (n < 2 || usize::from(step.second) < i)
}

// The root's sequent of a right derivation, which is valid; else the first fault.
pub fn check<T: Theory>(
    theory: &T,
    v: &Vocabulary,
    steps: &[Step],
    list: &[u16],
) -> Result<Sequent, Refusal>
    ensures accepted { Decides (is_ok result) (RightDerivation (T.meaning theory.now) (model v.now) steps.now list.now) }
    ensures refused { (e : Refusal) → (result ≡ Err e) ↔ FirstFault e (T.meaning theory.now) (model v.now) steps.now list.now }
    ensures root { IfOk result (λ s. seq s ≡ root steps.now list.now) }
    ensures valid { IfOk result (λ s. Valid (model v.now) (seq s)) }
{
    let derivation = Derivation {
        vocabulary: v,
        steps,
        list,
    };
    if !derivation.is_sized() {
        return Err(Refusal::SIZE);
    }
    // A step is judged by its place, which its premises are before and a refusal names; the steps alone would not do.
    for i in 0..steps.len() {
        let step = i as u16;
        derivation
            .test(theory, i)
            .map_err(|fault| Refusal { fault, step })?;
    }
    Ok(derivation.sequent_at(steps.len() - 1))
}
