// The three theories joined.
ghost use Rattle.std.specs.Prelude.{Decides};
ghost use Rattle.vocabulary.specs.View.{model};
ghost use Rattle.calculus.specs.Model.{seq, seqs};
ghost use Rattle.rules.specs.Theories.{OfTheTable};

use crate::theories::{Equality, Propositions, Quantifiers, RuleRange};
use calculus::{Joined, Sequent, Step, Theory};
use vocabulary::store::Vocabulary;

pub type Standard = Joined<Propositions, Joined<Quantifiers, Equality>>;

pub fn standard_theory() -> Standard {
    Joined(RuleRange, Joined(RuleRange, RuleRange))
}

// Whether the step is an instance of the rule that has its number, as the three joined judge it.
pub fn is_rule_instance(
    v: &Vocabulary,
    step: &Step,
    sequent: &Sequent,
    premises: &[Sequent],
) -> bool
    ensures { Decides result (OfTheTable (model v.now) step.now (seq sequent.now) (seqs premises.now)) }
{
    standard_theory().is_instance(v, step, sequent, premises)
}
