// Entering formulas.
ghost use Rattle.std.specs.Prelude.{◌≡◌, ◌≤◌, None, Ok};
ghost use Rattle.logic.specs.Deciding.{agreed, type_of, type_of_layer};
ghost use Rattle.logic.specs.Formulas.{through, weight, depth};
ghost use Rattle.formulas.specs.Records.{shape_of};
ghost use Rattle.vocabulary.specs.Calls.{depth_with, enter_formula, fits, formula_number, operands_fit, settle, weight_with};
ghost use Rattle.vocabulary.specs.Leaves.{Admits, agree_from, part, type_from};
ghost use Rattle.vocabulary.specs.View.{model};

use crate::facts::{Facts, Formula};
use crate::limits::{MAX_DEPTH, MAX_FORMULAS, MAX_WEIGHT};
use crate::store::Vocabulary;
use crate::types::append;
use formulas::kinds::{Kind, Role};
use formulas::records::Record;
use formulas::refusals::Refusal;

impl Vocabulary {
    // Whether n may stand as an operand.
    fn fits(&self, role: Role, n: u16) -> bool
        ensures { result ≡ fits (model self.now) role n }
    {
        match role {
            Role::Nothing => n == 0,
            Role::AVariable => self.knows_variable(n),
            Role::Expression => self.is_expression(n),
            Role::Predicate => self.is_predicate(n),
            Role::ASetName => usize::from(n) < self.set_names.len(),
        }
    }

    fn operands_fit(&self, r: Record) -> bool
        ensures { result ≡ operands_fit (model self.now) r }
    {
        self.fits(r.kind.first_role(), r.a) && self.fits(r.kind.second_role(), r.b)
    }

    // What an operand adds to the weight and to the depth, and its type; one that is no formula adds nothing, which 0 says.
    fn facts_of_operand(&self, role: Role, n: u16) -> Facts
        ensures ty { result.ty ≡ part 0 (type_of (model self.now)) role n }
        ensures weight { result.weight ≡ part 0 (weight (model self.now)) role n }
        ensures depth { result.depth ≡ part 0 (depth (model self.now)) role n }
        ensures light { result.weight ≤ 4095 }
        ensures shallow { result.depth ≤ 64 }
    {
        if !role.is_formula() {
            return Facts {
                ty: 0,
                weight: 0,
                depth: 0,
            };
        }
        self.facts_at(n)
    }

    // The type of a formula, from the types of its operands; 0 and no Option where it has none, as every stored type is a number.
    fn type_from(&self, r: Record, first: u16, second: u16) -> u16
        ensures { result ≡ type_from (model self.now) r first second }
    {
        match r.kind {
            Kind::Variable => self.variable_type(r.a),
            Kind::Pair => self.product_number(first, second).unwrap_or(0),
            _ => 0,
        }
    }

    fn agree_from(&self, r: Record, first: u16, second: u16) -> bool
        ensures { result ≡ agree_from (model self.now) r first second }
    {
        match r.kind {
            Kind::Pair => self.product_number(first, second).is_some(),
            Kind::Equal => first == second,
            Kind::Member => first == self.set_type(r.b),
            _ => true,
        }
    }

    // This and `facts_of` each read the operands, so that their contracts speak of the record alone.
    fn types_agree(&self, r: Record) -> bool
        ensures { result ≡ agreed (model self.now) (shape_of r) }
    {
        let p = self.facts_of_operand(r.kind.first_role(), r.a);
        let q = self.facts_of_operand(r.kind.second_role(), r.b);
        self.agree_from(r, p.ty, q.ty)
    }

    // The type, weight and depth that a record has once it is entered.
    fn facts_of(&self, r: Record) -> Facts
        ensures ty { result.ty ≡ type_of_layer (model self.now) (through (type_of (model self.now)) (shape_of r)) }
        ensures weight { result.weight ≡ weight_with (model self.now) (shape_of r) }
        ensures depth { result.depth ≡ depth_with (model self.now) (shape_of r) }
    {
        let p = self.facts_of_operand(r.kind.first_role(), r.a);
        let q = self.facts_of_operand(r.kind.second_role(), r.b);
        let ty = self.type_from(r, p.ty, q.ty);
        Facts {
            ty,
            weight: 1 + (p.weight + q.weight),
            depth: 1 + p.depth.max(q.depth),
        }
    }

    // The facts of a record that may be entered, or why it may not.
    fn admit(&self, r: Record) -> Result<Facts, Refusal>
        ensures { Admits (model self.now) r result }
    {
        if !self.operands_fit(r) {
            return Err(Refusal::WrongOperand);
        }
        if !self.types_agree(r) {
            return Err(Refusal::TypesDisagree);
        }
        let facts = self.facts_of(r);
        if facts.weight > MAX_WEIGHT || facts.depth > MAX_DEPTH {
            return Err(Refusal::TooLarge);
        }
        Ok(facts)
    }

    // The number of the formula that has a record, if there is one.
    pub fn formula_number(&self, r: Record) -> Option<u16>
        ensures { result ≡ formula_number (model self.now) r }
    {
        self.formulas
            .iter()
            .position(|f| f.entered == r)
            .map(|n| n as u16)
    }

    // Enters a record that may be entered and is new, unless the vocabulary is full.
    fn enter_record(&mut self, r: Record, facts: Facts) -> Result<u16, Refusal>
        requires admitted { Admits (model self.old) r (Ok facts) }
        requires fresh { formula_number (model self.old) r ≡ None }
        ensures answer { result ≡ (settle (model self.old) r None).answer }
        ensures after { model self.new ≡ (settle (model self.old) r None).after }
    {
        let formula = Formula { entered: r, facts };
        append(
            &mut self.formulas,
            formula,
            MAX_FORMULAS,
            Refusal::FormulasFull,
        )
    }

    pub fn enter_formula(&mut self, kind: u16, a: u16, b: u16) -> Result<u16, Refusal>
        ensures answer { result ≡ (enter_formula (model self.old) kind a b).answer }
        ensures after { model self.new ≡ (enter_formula (model self.old) kind a b).after }
    {
        let kind = Kind::try_from(kind)?;
        let r = Record { kind, a, b };
        let facts = self.admit(r)?;
        match self.formula_number(r) {
            Some(n) => Ok(n),
            None => self.enter_record(r, facts),
        }
    }
}
