// The calls that enter types, variables and set names.
ghost use Rattle.std.specs.Prelude.{◌≡◌, ℕ, ◌<◌, ◌≤◌, length, max, vec_len, vec_capacity, ◌≢◌};
ghost use Rattle.logic.specs.Deciding.{product_number};
ghost use Rattle.logic.specs.Formulas as logic;
ghost use Rattle.logic.specs.Formulas.{In, parts, sort};
ghost use Rattle.formulas.specs.Records.{sort_of};
ghost use Rattle.vocabulary.specs.Calls.{add_type, knows_type, new_carrier, new_set_name, new_variable, product};
ghost use Rattle.vocabulary.specs.Lists.{Appends};
ghost use Rattle.vocabulary.specs.View.{model};

use crate::limits::{MAX_SET_NAMES, MAX_TYPES, MAX_VARIABLES};
use crate::store::Vocabulary;
use formulas::records::TypeDef;
use formulas::refusals::Refusal;

// Appends to a list that may hold so many, and answers the item's number; or refuses, when the list is full.
pub(crate) fn append<T: Drop>(
    list: &mut Vec<T>,
    item: T,
    most: usize,
    full: Refusal,
) -> Result<u16, Refusal>
    requires short { most ≤ 65536 }
    requires room { most ≤ vec_capacity list.old }
    ensures items { Appends list.old.items list.new.items item most full result }
    ensures few { vec_len list.new ≤ max most (vec_len list.old) }
    ensures capacity { vec_capacity list.new ≡ vec_capacity list.old }
{
    let n = list.len();
    if n >= most {
        return Err(full);
    }
    list.push_reserved(item);
    Ok(n as u16)
}

impl Vocabulary {
    fn knows_type(&self, t: u16) -> bool
        ensures { result ≡ knows_type (model self.now) t }
    {
        usize::from(t) < self.types.len()
    }

    fn add_type(&mut self, d: TypeDef) -> Result<u16, Refusal>
        requires known { (r : ℕ) → In r (parts (sort_of d)) → r < length (model self.old).types }
        requires once { (t a b : ℕ) → sort_of d ≡ logic.product a b → t < length (model self.old).types → sort (model self.old) t ≢ sort_of d }
        ensures answer { result ≡ (add_type (model self.old) (sort_of d)).answer }
        ensures after { model self.new ≡ (add_type (model self.old) (sort_of d)).after }
    {
        append(&mut self.types, d, MAX_TYPES, Refusal::TypesFull)
    }

    pub fn new_carrier(&mut self) -> Result<u16, Refusal>
        ensures answer { result ≡ (new_carrier (model self.old)).answer }
        ensures after { model self.new ≡ (new_carrier (model self.old)).after }
    {
        self.add_type(TypeDef::Carrier)
    }

    pub(crate) fn product_number(&self, s: u16, t: u16) -> Option<u16>
        ensures { result ≡ product_number (model self.now) s t }
    {
        self.types
            .iter()
            .position(|d| *d == TypeDef::Product(s, t))
            .map(|n| n as u16)
    }

    pub fn product(&mut self, s: u16, t: u16) -> Result<u16, Refusal>
        ensures answer { result ≡ (product (model self.old) s t).answer }
        ensures after { model self.new ≡ (product (model self.old) s t).after }
    {
        if !self.knows_type(s) || !self.knows_type(t) {
            return Err(Refusal::UnknownType);
        }
        match self.product_number(s, t) {
            Some(n) => Ok(n),
            None => self.add_type(TypeDef::Product(s, t)),
        }
    }

    // This and `new_set_name` differ in what they hand to `append`, and have no more in common than two calls.
    pub fn new_variable(&mut self, t: u16) -> Result<u16, Refusal>
        ensures answer { result ≡ (new_variable (model self.old) t).answer }
        ensures after { model self.new ≡ (new_variable (model self.old) t).after }
    {
        if !self.knows_type(t) {
            return Err(Refusal::UnknownType);
        }
        append(
            &mut self.variables,
            t,
            MAX_VARIABLES,
            Refusal::VariablesFull,
        )
    }

    pub fn new_set_name(&mut self, t: u16) -> Result<u16, Refusal>
        ensures answer { result ≡ (new_set_name (model self.old) t).answer }
        ensures after { model self.new ≡ (new_set_name (model self.old) t).after }
    {
        if !self.knows_type(t) {
            return Err(Refusal::UnknownType);
        }
        append(&mut self.set_names, t, MAX_SET_NAMES, Refusal::SetNamesFull)
    }
}
