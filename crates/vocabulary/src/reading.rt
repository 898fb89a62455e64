// What is stored of a formula, a variable and a set name. Where there is none, what ⊥ and type 0 would have, and no Option: the
// definitions read an unknown number so, and the questions that care whether there is one are in a crate above.
ghost use Rattle.std.specs.Prelude.{◌≡◌, ◌≤◌, length, vec_len};
ghost use Rattle.logic.specs.Deciding.{is_expression, is_predicate, knows_formula, type_of};
ghost use Rattle.logic.specs.Formulas.{node, variable_type, element_type, weight, depth};
ghost use Rattle.formulas.specs.Records.{record_of};
ghost use Rattle.vocabulary.specs.Calls.{knows_variable};
ghost use Rattle.vocabulary.specs.Stored.{formula_at};
ghost use Rattle.vocabulary.specs.View.{model};

use crate::facts::{FALSITY, Facts, Formula};
use crate::store::Vocabulary;
use formulas::records::Record;

impl Vocabulary {
    // A formula; ⊥ where no formula has the number.
    fn formula(&self, n: u16) -> Formula
        ensures { result ≡ formula_at self.now.formulas.items n }
    {
        self.formulas
            .get(usize::from(n))
            .copied()
            .unwrap_or(FALSITY)
    }

    // The record of a formula; that of ⊥ where no formula has the number.
    pub fn record(&self, n: u16) -> Record
        ensures { result ≡ record_of (node (model self.now) n) }
    {
        self.formula(n).entered
    }

    pub fn knows_formula(&self, n: u16) -> bool
        ensures { result ≡ knows_formula (model self.now) n }
    {
        usize::from(n) < self.formulas.len()
    }

    pub fn knows_variable(&self, x: u16) -> bool
        ensures { result ≡ knows_variable (model self.now) x }
    {
        usize::from(x) < self.variables.len()
    }

    pub fn is_predicate(&self, n: u16) -> bool
        ensures { result ≡ is_predicate (model self.now) n }
    {
        self.knows_formula(n) && !self.record(n).kind.is_expression()
    }

    pub fn is_expression(&self, n: u16) -> bool
        ensures { result ≡ is_expression (model self.now) n }
    {
        self.knows_formula(n) && self.record(n).kind.is_expression()
    }

    // The type, weight and depth of a formula; of no formula, what ⊥ would have.
    pub fn facts_at(&self, n: u16) -> Facts
        ensures ty { result.ty ≡ type_of (model self.now) n }
        ensures weight { result.weight ≡ weight (model self.now) n }
        ensures depth { result.depth ≡ depth (model self.now) n }
        ensures light { result.weight ≤ 4095 }
        ensures shallow { result.depth ≤ 64 }
    {
        self.formula(n).facts
    }

    // This, the next and `formula` are one chain of the library's each; a helper would only name it.
    pub fn variable_type(&self, x: u16) -> u16
        ensures { result ≡ variable_type (model self.now) x }
    {
        self.variables.get(usize::from(x)).copied().unwrap_or(0)
    }

    pub(crate) fn set_type(&self, s: u16) -> u16
        ensures { result ≡ element_type (model self.now) s }
    {
        self.set_names.get(usize::from(s)).copied().unwrap_or(0)
    }
}
