// A theory with one rule, number 100, by which ⊤ follows from anything.
ghost use Rattle.calculus_tests.specs.Truth.{truth_rule};
ghost use Rattle.calculus_tests.specs.Lawful.{truth_sound, truth_regular};

use calculus::{Sequent, Step, Theory};
use formulas::kinds::Kind;
use formulas::records::Record;
use questions::reading::has_record;
use vocabulary::store::Vocabulary;

#[derive(Clone, Copy)]
pub struct TruthRule;

impl Theory for TruthRule {
    ghost meaning = { λ _. truth_rule };

    ghost sound = { λ t. truth_sound };

    ghost regular = { λ t. truth_regular };

    fn knows(&self, rule: u16) -> bool {
        rule == 100
    }

    fn premises(&self, _rule: u16) -> u8 {
        0
    }

    fn is_instance(
        &self,
        v: &Vocabulary,
        step: &Step,
        sequent: &Sequent,
        premises: &[Sequent],
    ) -> bool {
        let top = Record {
            kind: Kind::True,
            a: 0,
            b: 0,
        };
        step.rule == 100 && premises.is_empty() && has_record(v, sequent.goal(), top)
    }
}
