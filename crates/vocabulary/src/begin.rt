// A new vocabulary, and what holds of every one.
ghost use Rattle.std.specs.Prelude.{◌≡◌, true, IfOk};
ghost use Rattle.logic.specs.Formulas.{WellFormed, Limited};
ghost use Rattle.logic.specs.Growing.{empty_vocabulary};
ghost use Rattle.vocabulary.specs.View.{model};

use crate::limits::{MAX_FORMULAS, MAX_SET_NAMES, MAX_TYPES, MAX_VARIABLES};
use crate::store::Vocabulary;
use std::alloc::{AllocError, Global};

impl Vocabulary {
    // An empty vocabulary, with all the memory that it will ever need.
    pub fn new(alloc: Global) -> Result<Vocabulary, AllocError>
        ensures { IfOk result (λ v. model v ≡ empty_vocabulary) }
    {
        let types = Vec::with_capacity(alloc, MAX_TYPES)?;
        let variables = Vec::with_capacity(alloc, MAX_VARIABLES)?;
        let set_names = Vec::with_capacity(alloc, MAX_SET_NAMES)?;
        let formulas = Vec::with_capacity(alloc, MAX_FORMULAS)?;
        Ok(Vocabulary {
            types,
            variables,
            set_names,
            formulas,
        })
    }

    // Every vocabulary is well formed and within its limits, so the answer is always yes; the other clauses are what a caller gets.
    pub fn is_well_formed(&self) -> bool
        ensures answer { result ≡ true }
        ensures formed { WellFormed (model self.now) }
        ensures limited { Limited (model self.now) }
    {
        true
    }
}
