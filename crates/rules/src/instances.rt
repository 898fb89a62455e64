// Whether a step is an instance of a rule.
ghost use Rattle.std.specs.Prelude.{◌≡◌, T, length, Decides};
ghost use Rattle.std.specs.List.{list_any};
ghost use Rattle.logic.specs.declared.rule.Rule.TheVariants.{FalseL, Mon};
ghost use Rattle.formulas.specs.declared.kinds.Kind.TheVariants.{False};
ghost use Rattle.vocabulary.specs.View.{model};
ghost use Rattle.calculus.specs.Model.{seq, seqs};
ghost use Rattle.matching.specs.Lines.{goal_at};
ghost use Rattle.matching.specs.Reading.{is};
ghost use Rattle.rules.specs.Inferences.{InstanceOf};
ghost use Rattle.rules.specs.Tables.{arity, by_line};

use calculus::{Sequent, Step};
use logic::rule::Rule;
use matching::contexts::line_fits;
use matching::lines::Candidate;
use matching::reading::is_falsity;
use matching::sets::covered;
use matching::side::SideFormulas;
use vocabulary::store::Vocabulary;

// A step over a vocabulary, with its sequent and those of its premises.
#[derive(Clone, Copy)]
pub(crate) struct Inference<'a> {
    pub(crate) vocabulary: &'a Vocabulary,
    pub(crate) step: &'a Step,
    pub(crate) sequent: &'a Sequent,
    pub(crate) premises: &'a [Sequent],
}

impl Inference<'_> {
    // The goal of a premise, 0 where there is none: a rule reads the goals of as many premises as it takes.
    fn goal_at(&self, i: usize) -> u16
        ensures { result ≡ goal_at (seqs self.now.premises.now) i }
    {
        self.premises.get(i).map_or(0, |p| p.goal())
    }

    // Whether some hypothesis is ⊥.
    fn has_falsity(&self) -> bool
        ensures { result ≡ list_any (λ n. is (model self.now.vocabulary.now) n False 0 0) (seq self.now.sequent.now).hypotheses }
    {
        let hypotheses = self.sequent.hypotheses();
        hypotheses.iter().any(|n| is_falsity(self.vocabulary, *n))
    }

    fn is_false_l(&self) -> bool
        ensures { Decides result (InstanceOf self.now FalseL) }
    {
        self.premises.is_empty() && self.has_falsity()
    }

    fn is_mon(&self) -> bool
        ensures { Decides result (InstanceOf self.now Mon) }
    {
        let [p] = self.premises else { return false };
        self.sequent.goal() == p.goal()
            && covered(
                SideFormulas::Nothing,
                p.hypotheses(),
                self.sequent.hypotheses(),
            )
    }

    // The rules other than MON and FALSE_L have one line for the goals of a step.
    fn is_by_line(&self, rule: Rule) -> bool
        requires rule { T (by_line rule) }
        requires count { length self.now.premises.now ≡ arity rule }
        ensures { Decides result (InstanceOf self.now rule) }
    {
        let candidate = Candidate {
            vocabulary: self.vocabulary,
            rule,
            step: self.step,
            goal: self.sequent.goal(),
            first: self.goal_at(0),
            second: self.goal_at(1),
        };
        let Some(line) = candidate.line() else {
            return false
        };
        line_fits(self.vocabulary, &line, self.sequent, self.premises)
    }

    pub(crate) fn is_instance_of(&self, rule: Rule) -> bool
        requires { length self.now.premises.now ≡ arity rule }
        ensures { Decides result (InstanceOf self.now rule) }
    {
        // Two rules of 25 have no line; a table of functions would say no more.
        match rule {
            Rule::Mon => self.is_mon(),
            Rule::FalseL => self.is_false_l(),
            _ => self.is_by_line(rule),
        }
    }
}
