// The line of the table that a step has.
ghost use Rattle.std.specs.Prelude.{◌≡◌, false};
ghost use Rattle.logic.specs.declared.rule.Rule.TheVariants.{NotL, NotR, AndL, OrL, OrR, ImpL, ImpR, EqvL, EqvR, AllL, AllR, XstL, XstR, Eql, EqLR, PairL, PairR};
ghost use Rattle.vocabulary.specs.View.{model};
ghost use Rattle.matching.specs.Lines.{fresh_row, row_of, taken, Substitutions};
ghost use Rattle.matching.specs.Candidates.{HasLine, line_for};

use crate::line::Line;
use crate::reading::{is, is_falsity, number_of, operands, pair_parts};
use crate::side::SideFormulas;
use crate::side::SideFormulas::{Nothing, One, Two};
use calculus::Step;
use formulas::kinds::Kind;
use logic::rule::Rule;
use questions::substitution::{is_free, is_substitution};
use vocabulary::store::Vocabulary;

// The test comes first, as in the rows of the definition; `then_some` at each of twenty calls would say no more.
fn line_of(
    matches: bool,
    conclusion: SideFormulas,
    first: SideFormulas,
    second: SideFormulas,
) -> Option<Line>
    ensures { result ≡ taken (row_of matches conclusion first second) }
{
    matches.then_some(Line {
        conclusion,
        first,
        second,
        fresh: None,
    })
}

// A line whose variable x must not be free in H.
fn fresh_line(x: u16, matches: bool, conclusion: SideFormulas, first: SideFormulas) -> Option<Line>
    ensures { result ≡ taken (fresh_row x matches conclusion first) }
{
    matches.then_some(Line {
        conclusion,
        first,
        second: Nothing,
        fresh: Some(x),
    })
}

// A step by a rule, with the goal of its sequent and the goals of its premises. The goal of a premise that is missing is 0 and no
// Option: a rule reads as many goals as it takes premises, and the definition of its line is total.
#[derive(Clone, Copy)]
pub struct Candidate<'a> {
    pub vocabulary: &'a Vocabulary,
    pub rule: Rule,
    pub step: &'a Step,
    pub goal: u16,
    pub first: u16,
    pub second: u16,
}

impl Candidate<'_> {
    fn not_l(&self) -> Option<Line>
        ensures { result ≡ line_for self.now NotL false false }
    {
        let n = number_of(self.vocabulary, Kind::Not, self.goal, 0)?;
        let a = self.step.a;
        let negates = is(self.vocabulary, a, Kind::Not, self.first, 0);
        line_of(negates, One(a), One(n), Nothing)
    }

    fn not_r(&self) -> Option<Line>
        ensures { result ≡ line_for self.now NotR false false }
    {
        let (x, _) = operands(self.vocabulary, self.goal, Kind::Not)?;
        let refuted = is_falsity(self.vocabulary, self.first);
        line_of(refuted, Nothing, One(x), Nothing)
    }

    fn and_l(&self) -> Option<Line>
        ensures { result ≡ line_for self.now AndL false false }
    {
        let a = self.step.a;
        let (left, right) = operands(self.vocabulary, a, Kind::And)?;
        line_of(self.first == self.goal, One(a), Two(left, right), Nothing)
    }

    fn or_l(&self) -> Option<Line>
        ensures { result ≡ line_for self.now OrL false false }
    {
        let a = self.step.a;
        let (left, right) = operands(self.vocabulary, a, Kind::Or)?;
        let same = self.first == self.goal && self.second == self.goal;
        line_of(same, One(a), One(left), One(right))
    }

    fn or_r(&self) -> Option<Line>
        ensures { result ≡ line_for self.now OrR false false }
    {
        let (left, right) = operands(self.vocabulary, self.goal, Kind::Or)?;
        let n = number_of(self.vocabulary, Kind::Not, left, 0)?;
        line_of(self.first == right, Nothing, One(n), Nothing)
    }

    fn imp_l(&self) -> Option<Line>
        ensures { result ≡ line_for self.now ImpL false false }
    {
        let a = self.step.a;
        let (antecedent, consequent) = operands(self.vocabulary, a, Kind::Implies)?;
        line_of(
            self.first == self.goal,
            Two(antecedent, a),
            Two(antecedent, consequent),
            Nothing,
        )
    }

    fn imp_r(&self) -> Option<Line>
        ensures { result ≡ line_for self.now ImpR false false }
    {
        let (antecedent, consequent) = operands(self.vocabulary, self.goal, Kind::Implies)?;
        line_of(self.first == consequent, Nothing, One(antecedent), Nothing)
    }

    fn eqv_l(&self) -> Option<Line>
        ensures { result ≡ line_for self.now EqvL false false }
    {
        let a = self.step.a;
        let (x, y) = operands(self.vocabulary, a, Kind::Iff)?;
        let n = number_of(self.vocabulary, Kind::Implies, x, y)?;
        let m = number_of(self.vocabulary, Kind::Implies, y, x)?;
        line_of(self.first == self.goal, One(a), Two(n, m), Nothing)
    }

    fn eqv_r(&self) -> Option<Line>
        ensures { result ≡ line_for self.now EqvR false false }
    {
        let (x, y) = operands(self.vocabulary, self.goal, Kind::Iff)?;
        let implied = is(self.vocabulary, self.first, Kind::Implies, x, y)
            && is(self.vocabulary, self.second, Kind::Implies, y, x);
        line_of(implied, Nothing, Nothing, Nothing)
    }

    fn all_r(&self) -> Option<Line>
        ensures { result ≡ line_for self.now AllR false false }
    {
        let (x, body) = operands(self.vocabulary, self.goal, Kind::ForAll)?;
        fresh_line(x, self.first == body, Nothing, Nothing)
    }

    fn xst_l(&self) -> Option<Line>
        ensures { result ≡ line_for self.now XstL false false }
    {
        let a = self.step.a;
        let (x, body) = operands(self.vocabulary, a, Kind::Exists)?;
        let matches = !is_free(self.vocabulary, x, self.goal) && self.first == self.goal;
        fresh_line(x, matches, One(a), One(body))
    }

    fn eql(&self) -> Option<Line>
        ensures { result ≡ line_for self.now Eql false false }
    {
        let (e, f) = operands(self.vocabulary, self.goal, Kind::Equal)?;
        line_of(e == f, Nothing, Nothing, Nothing)
    }

    fn pair_l(&self) -> Option<Line>
        ensures { result ≡ line_for self.now PairL false false }
    {
        let a = self.step.a;
        let ((e1, f1), (e2, f2)) = pair_parts(self.vocabulary, a)?;
        let i = number_of(self.vocabulary, Kind::Equal, e1, f1)?;
        let j = number_of(self.vocabulary, Kind::Equal, e2, f2)?;
        line_of(self.first == self.goal, One(a), Two(i, j), Nothing)
    }

    fn pair_r(&self) -> Option<Line>
        ensures { result ≡ line_for self.now PairR false false }
    {
        let ((e1, f1), (e2, f2)) = pair_parts(self.vocabulary, self.goal)?;
        let parts = is(self.vocabulary, self.first, Kind::Equal, e1, f1)
            && is(self.vocabulary, self.second, Kind::Equal, e2, f2);
        line_of(parts, Nothing, Nothing, Nothing)
    }

    fn all_l(&self, substituted: bool) -> Option<Line>
        ensures { result ≡ line_for self.now AllL substituted false }
    {
        let a = self.step.a;
        operands(self.vocabulary, a, Kind::ForAll)?;
        let matches = substituted && self.first == self.goal;
        line_of(matches, One(a), Two(a, self.step.c), Nothing)
    }

    fn xst_r(&self, substituted: bool) -> Option<Line>
        ensures { result ≡ line_for self.now XstR substituted false }
    {
        operands(self.vocabulary, self.goal, Kind::Exists)?;
        line_of(substituted, Nothing, Nothing, Nothing)
    }

    // EQ_LR and EQ_RL, by whether the goals of the premise and of the conclusion are the substitutions.
    fn substituted(&self, above: bool, below: bool) -> Option<Line>
        ensures { result ≡ line_for self.now EqLR above below }
    {
        let a = self.step.a;
        operands(self.vocabulary, a, Kind::Equal)?;
        let matches = self.vocabulary.is_predicate(self.step.c) && above && below;
        line_of(matches, One(a), One(a), Nothing)
    }

    // For the rules that substitute an expression for a variable: whether the formulas named are the substitutions. A pair, since
    // the definition of the line takes both answers, and no Option of it: a line that is not asked of them reads neither.
    pub fn substitutions(&self) -> (bool, bool)
        ensures { Substitutions (model self.now.vocabulary.now) self.now.rule self.now.step.now self.now.goal self.now.first result.0 result.1 }
    {
        let v = self.vocabulary;
        let Step { a, b, c, .. } = *self.step;
        match self.rule {
            Rule::AllL => {
                let quantified = v.record(a);
                (is_substitution(v, c, quantified.b, quantified.a, b), false)
            }
            Rule::XstR => {
                let quantified = v.record(self.goal);
                (
                    is_substitution(v, self.first, quantified.b, quantified.a, b),
                    false,
                )
            }
            Rule::EqLR => {
                let equation = v.record(a);
                (
                    is_substitution(v, self.first, c, b, equation.b),
                    is_substitution(v, self.goal, c, b, equation.a),
                )
            }
            Rule::EqRL => {
                let equation = v.record(a);
                (
                    is_substitution(v, self.first, c, b, equation.a),
                    is_substitution(v, self.goal, c, b, equation.b),
                )
            }
            _ => (false, false),
        }
    }

    // The line of the table that the step has, by the answers of `substitutions` about its first premise and its goal.
    pub fn line_by(&self, w: bool, z: bool) -> Option<Line>
        ensures { result ≡ line_for self.now self.now.rule w z }
    {
        let (v, g, p, q) = (self.vocabulary, self.goal, self.first, self.second);
        // A rule is data, which a step brings as a number; an arm is a line of the table.
        match self.rule {
            Rule::Hyp => line_of(true, One(g), Nothing, Nothing),
            Rule::Cut => line_of(q == g, Nothing, Nothing, One(p)),
            Rule::FalseR => {
                let refuted = is(v, q, Kind::Not, p, 0) && is_falsity(v, g);
                line_of(refuted, Nothing, Nothing, Nothing)
            }
            Rule::NotL => self.not_l(),
            Rule::NotR => self.not_r(),
            Rule::AndL => self.and_l(),
            Rule::AndR => line_of(is(v, g, Kind::And, p, q), Nothing, Nothing, Nothing),
            Rule::OrL => self.or_l(),
            Rule::OrR => self.or_r(),
            Rule::ImpL => self.imp_l(),
            Rule::ImpR => self.imp_r(),
            Rule::TrueR => line_of(is(v, g, Kind::True, 0, 0), Nothing, Nothing, Nothing),
            Rule::EqvL => self.eqv_l(),
            Rule::EqvR => self.eqv_r(),
            Rule::AllL => self.all_l(w),
            Rule::AllR => self.all_r(),
            Rule::XstL => self.xst_l(),
            Rule::XstR => self.xst_r(w),
            Rule::Eql => self.eql(),
            Rule::EqLR | Rule::EqRL => self.substituted(w, z),
            Rule::PairL => self.pair_l(),
            Rule::PairR => self.pair_r(),
            Rule::Mon | Rule::FalseL => None,
        }
    }

    // The line of the table that the step has.
    pub fn line(&self) -> Option<Line>
        ensures { HasLine self.now result }
    {
        let (w, z) = self.substitutions();
        self.line_by(w, z)
    }
}
