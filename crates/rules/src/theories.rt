// The three built theories: ranges of the table.
ghost use Rattle.std.specs.Prelude.{◌≡◌, true, false, MatchOption};
ghost use Rattle.logic.specs.Numbers.{number};
ghost use Rattle.rules.specs.Theories.{built, within};
ghost use Rattle.rules.specs.Built.{built_sound, built_regular};

use crate::instances::Inference;
use crate::table::premise_count;
use calculus::{Sequent, Step, Theory};
use logic::rule::Rule;
use vocabulary::store::Vocabulary;

// The theory of the rules from LOW to HIGH. It knows no number beyond the 25.
#[derive(Clone, Copy)]
pub struct RuleRange<const LOW: u16, const HIGH: u16>;

// Hypotheses and the propositional connectives.
pub type Propositions = RuleRange<1, 16>;

pub type Quantifiers = RuleRange<17, 20>;

// Equality and pairs.
pub type Equality = RuleRange<21, 25>;

impl<const LOW: u16, const HIGH: u16> RuleRange<LOW, HIGH> {
    // The rule of a number, if the range has it.
    fn rule(n: u16) -> Option<Rule>
        ensures { MatchOption result (within LOW HIGH n ≡ false) (λ r. (within LOW HIGH n ≡ true) × (number r ≡ n)) }
    {
        if LOW <= n && n <= HIGH {
            Rule::try_from(n).ok()
        } else {
            None
        }
    }
}

impl<const LOW: u16, const HIGH: u16> Theory for RuleRange<LOW, HIGH> {
    ghost meaning = { λ _. built LOW HIGH };

    ghost sound = { λ t. built_sound LOW HIGH };

    ghost regular = { λ t. built_regular LOW HIGH };

    fn knows(&self, rule: u16) -> bool {
        Self::rule(rule).is_some()
    }

    fn premises(&self, rule: u16) -> u8 {
        Self::rule(rule).map_or(0, premise_count)
    }

    fn is_instance(
        &self,
        v: &Vocabulary,
        step: &Step,
        sequent: &Sequent,
        premises: &[Sequent],
    ) -> bool {
        let Some(rule) = Self::rule(step.rule) else {
            return false
        };
        if premises.len() != usize::from(premise_count(rule)) {
            return false;
        }
        let inference = Inference {
            vocabulary: v,
            step,
            sequent,
            premises,
        };
        inference.is_instance_of(rule)
    }
}
