// The logic of the derivation book: each function of this file has a theorem about the definitions of specs/ for its contract.
#![tactic(auto)]

ghost use Rattle.logic.specs.Deciding.{TypesDecided, FormedDecided, SureWellFormed};
ghost use Rattle.logic.specs.Examples.{WorkedExample};
ghost use Rattle.logic.specs.Growing.{GrowthKeeps, StaysWellFormed, EntersWell, OthersEnterWell};
ghost use Rattle.logic.specs.Rules.{Sound, InstanceBySets, MonBySubset, Consistent, LinesUnique, JudgedByLine, FalseByMember};
ghost use Rattle.logic.specs.Meanings.{Coincidence, BoundIndependent, Substitution, ValuesTyped};

pub mod rule;

// Truth depends on free variables only.
pub fn meaning_depends_on_free_variables()
    ensures { Coincidence }
{}

// The value of a variable that is not free makes no difference.
pub fn bound_variables_do_not_count()
    ensures { BoundIndependent }
{}

// [x:=E]P is true where P is with x at the value of E.
pub fn substitution_evaluates()
    ensures { Substitution }
{}

// The value of an expression is among its type's values.
pub fn values_are_typed()
    ensures { ValuesTyped }
{}

// A vocabulary that grows changes nothing of what older numbers mean.
pub fn growth_keeps_meanings()
    ensures { GrowthKeeps }
{}

// A vocabulary stays well formed if what is new is.
pub fn growth_stays_well_formed()
    ensures { StaysWellFormed }
{}

// A formula over known operands that is formed and new may be entered.
pub fn formulas_enter_well()
    ensures { EntersWell }
{}

// So may types, variables and set names.
pub fn others_enter_well()
    ensures { OthersEnterWell }
{}

// The type that is reckoned is the type.
pub fn types_are_decided()
    ensures { TypesDecided }
{}

// A shape is formed exactly when the tests of its operands pass.
pub fn forms_are_decided()
    ensures { FormedDecided }
{}

// A vocabulary that is well formed as far as tests tell is well formed.
pub fn sure_is_well_formed()
    ensures { SureWellFormed }
{}

// The worked example.
pub fn worked_example_stands()
    ensures { WorkedExample }
{}

// Where all premises of an instance are valid, so is its sequent.
pub fn rules_are_sound()
    ensures { Sound }
{}

// ⊥ is not valid.
pub fn rules_are_consistent()
    ensures { Consistent }
{}

// Some H fits exactly when the least one does, which comparing sets tells.
pub fn sets_decide()
    ensures { InstanceBySets }
{}

// MON is weakening by a subset.
pub fn mon_is_by_subset()
    ensures { MonBySubset }
{}

// FALSE_L asks for ⊥ among the hypotheses.
pub fn falsity_is_by_member()
    ensures { FalseByMember }
{}

// Arguments and goals determine a step's line of the table.
pub fn lines_are_unique()
    ensures { LinesUnique }
{}

// So a step is judged by that line alone.
pub fn lines_judge()
    ensures { JudgedByLine }
{}
